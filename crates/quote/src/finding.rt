//! A quote, once nothing turned it back.
ghost use Rattle.std.specs.Prelude.{◌≡◌, true, map, length};
ghost use Rattle.cover.specs.Filled.{Small};
ghost use Rattle.sheet.specs.Calls.{priced};
ghost use Rattle.sheet.specs.Held.{held};
ghost use Rattle.quote.specs.Lent.{quote_contents, SameQuoteMemory};
ghost use Rattle.quote.specs.Memory.{quote_memory_sized};
ghost use Rattle.quote.specs.Quotes.{quote_asked, QuoteFilled};
ghost use Rattle.quote.specs.Trees.{KeepsTheTree, NoSmallerConcession};

use crate::memory::QuoteMemory;
use crate::revising::revise;
use crate::tree_cost::cost_of_listed;
use amount::kind::Amount;
use cover::in_stages::find_cover;
use cover::memory::CoverMemory;
use cover::question::Question;
use sheet::Sheet;
use tree_family::tree::TreeFamily;

/// What a quote answers.
#[derive(Clone, Copy, Debug, PartialEq, Eq)]
pub struct Quote<T> {
    /// The concession: what the tree costs more than the cover.
    pub concession: T,
    /// What the cover costs.
    pub cost: T,
    /// How many sets stage 1 found.
    pub sets: usize,
}

/// Finds the cover of the tree family, and revises the prices of the tree's links by what it left.
pub fn find_quote<T: Amount>(
    sheet: &Sheet,
    prices: &[T],
    family: &TreeFamily,
    memory: &mut QuoteMemory<'_, T>,
) -> Quote<T>
    requires column { length prices.now ≡ 200 }
    requires priced { priced sheet.now.links.slots (map T.parts prices.now) ≡ true }
    requires memory { quote_memory_sized (quote_contents memory.old) ≡ true }
    requires family { family.now.shape.rooted.sheet ≡ sheet.now }
    ensures same_memory { SameQuoteMemory memory.old memory.new }
    ensures filled { QuoteFilled T.parts T.width (held sheet.now) (map T.parts prices.now) (quote_contents memory.old) (quote_contents memory.new) result.sets (T.parts result.cost) (T.parts result.concession) }
    ensures small { Small T.parts (quote_asked T.width (held sheet.now) (map T.parts prices.now)) (quote_contents memory.new).cover.packing result.sets }
    ensures keeps { KeepsTheTree T.width (held sheet.now) (map T.parts prices.now) (map T.parts memory.new.revised.now) (T.parts result.concession) }
    ensures least { NoSmallerConcession T.width (held sheet.now) (map T.parts prices.now) (T.parts result.concession) }
{
    let question = Question {
        sheet,
        prices,
        family,
    };
    let mut lent = CoverMemory {
        left: memory.left,
        sets: memory.sets,
        amounts: memory.amounts,
        marks: memory.marks,
    };
    let cover = find_cover(&question, &mut lent);
    revise(sheet, prices, &lent, memory.revised);
    let tree_cost = cost_of_listed(prices, sheet.tree_links());
    Quote {
        concession: tree_cost.minus(cover.cost),
        cost: cover.cost,
        sets: cover.sets,
    }
}
