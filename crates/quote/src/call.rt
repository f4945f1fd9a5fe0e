//! The call: a quote for the installed tree, with everything that turns it back.
ghost use Rattle.std.specs.Prelude.{◌≡◌, false, map, is_ok, IfOk};
ghost use Rattle.std.specs.Result.{result_err};
ghost use Rattle.cover.specs.Filled.{Small};
ghost use Rattle.refusal.specs.Checks.{first};
ghost use Rattle.sheet.specs.Held.{held};
ghost use Rattle.quote.specs.Lent.{quote_contents, SameQuoteMemory};
ghost use Rattle.quote.specs.Memory.{quote_memory_sized};
ghost use Rattle.quote.specs.Quotes.{quote_asked, quote_checks, QuoteFilled};
ghost use Rattle.quote.specs.Trees.{KeepsTheTree, NoSmallerConcession};

use crate::finding::{Quote, find_quote};
use crate::memory::QuoteMemory;
use amount::kind::Amount;
use refusal::Refusal;
use sheet::Sheet;
use tree_family::tree::TreeFamily;

/// The least concession that keeps the installed tree a cheapest one, and the prices that do so.
///
/// The caller lends the memory, which is filled as that of a cover is, and with the revised price of each
/// link of the sheet.
pub fn quote<T: Amount>(
    sheet: &Sheet,
    prices: &[T],
    memory: &mut QuoteMemory<'_, T>,
) -> Result<Quote<T>, Refusal>
    ensures refusal { result_err result ≡ first (quote_checks (held sheet.now) (map T.parts prices.now) (quote_memory_sized (quote_contents memory.old))) }
    ensures untouched { is_ok result ≡ false → quote_contents memory.new ≡ quote_contents memory.old }
    ensures same_memory { SameQuoteMemory memory.old memory.new }
    ensures filled { IfOk result (λ q. QuoteFilled T.parts T.width (held sheet.now) (map T.parts prices.now) (quote_contents memory.old) (quote_contents memory.new) q.sets (T.parts q.cost) (T.parts q.concession)) }
    ensures small { IfOk result (λ q. Small T.parts (quote_asked T.width (held sheet.now) (map T.parts prices.now)) (quote_contents memory.new).cover.packing q.sets) }
    ensures keeps { IfOk result (λ q. KeepsTheTree T.width (held sheet.now) (map T.parts prices.now) (map T.parts memory.new.revised.now) (T.parts q.concession)) }
    ensures least { IfOk result (λ q. NoSmallerConcession T.width (held sheet.now) (map T.parts prices.now) (T.parts q.concession)) }
{
    sheet.check_column(prices)?;
    if !memory.fits() {
        return Err(Refusal::MemorySize);
    }
    let Some(family) = TreeFamily::of(sheet) else {
        return Err(Refusal::NoTree);
    };
    Ok(find_quote(sheet, prices, &family, memory))
}
