//! The memory that a caller lends to a quote.
ghost use Rattle.std.specs.Prelude.{◌≡◌};
ghost use Rattle.quote.specs.Lent.{quote_contents};
ghost use Rattle.quote.specs.Memory.{quote_memory_sized};

use cover::memory::SETS;
use digraph::table::LINKS;

/// The memory that a caller lends to a quote, which the quote fills: that of a cover, and the revised prices.
// The five lie side by side, and no `CoverMemory` is a field: of slices lent in a struct within a struct, the
// caller's proof does not know what they hold afterwards.
#[derive(Drop)]
pub struct QuoteMemory<'a, T> {
    /// For each link number, what is left of the link: 200 places.
    pub left: &'a mut [T],
    /// The sets that prove the answer, in the order found: 80 places.
    pub sets: &'a mut [u64],
    /// The amount of each of these sets: 80 places.
    pub amounts: &'a mut [T],
    /// For each link number, a mark if the link is one of the cover: 200 places.
    pub marks: &'a mut [u8],
    /// For each link number, the revised price of the link: 200 places.
    pub revised: &'a mut [T],
}

impl<T> QuoteMemory<'_, T> {
    /// Whether the columns, the lists and the marks have the size that a quote asks for.
    pub fn fits(&self) -> bool
        ensures { result ≡ quote_memory_sized (quote_contents self.now) }
    {
        self.left.len() == LINKS
            && self.sets.len() == SETS
            && self.amounts.len() == SETS
            && self.marks.len() == LINKS
            && self.revised.len() == LINKS
    }
}
