//! The memory that a caller lends to a cover.
ghost use Rattle.std.specs.Prelude.{◌≡◌};
ghost use Rattle.cover.specs.Memory.{memory_sized};
ghost use Rattle.cover.specs.Lent.{contents};

use digraph::table::LINKS;

/// How many places the lists of sets and of amounts have.
pub const SETS: usize = 80;

/// The memory that a caller lends to a cover, which the cover fills.
// The sets and their amounts are two lists: that is how callers have and print them.
#[derive(Drop)]
pub struct CoverMemory<'a, T> {
    /// For each link number, what is left of the link: 200 places.
    pub left: &'a mut [T],
    /// The sets that prove the answer, in the order found: 80 places.
    pub sets: &'a mut [u64],
    /// The amount of each of these sets: 80 places.
    pub amounts: &'a mut [T],
    /// For each link number, a mark if the link is one of the cover: 200 places.
    pub marks: &'a mut [u8],
}

impl<T> CoverMemory<'_, T> {
    /// Whether the columns, the lists and the marks have the size that a cover asks for.
    pub fn fits(&self) -> bool
        ensures { result ≡ memory_sized (contents self.now) }
    {
        self.left.len() == LINKS
            && self.sets.len() == SETS
            && self.amounts.len() == SETS
            && self.marks.len() == LINKS
    }
}
