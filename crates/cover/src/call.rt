//! The call: a cover of a sheet's links, with everything that turns it back.
ghost use Rattle.std.specs.Prelude.{◌≡◌, false, is_ok, IfOk};
ghost use Rattle.std.specs.Result.{result_err};
ghost use Rattle.refusal.specs.Checks.{first};
ghost use Rattle.sheet.specs.Held.{held};
ghost use Rattle.stages.specs.Theorems.{CheapestCover};
ghost use Rattle.cover.specs.Lent.{contents, SameMemory};
ghost use Rattle.cover.specs.Memory.{memory_sized};
ghost use Rattle.cover.specs.Questions.{cover_asked};
ghost use Rattle.cover.specs.Ready.{cover_checks};
ghost use Rattle.cover.specs.Filled.{Filled, Small};

use crate::checks::check_family;
use crate::in_stages::{Cover, find_cover};
use crate::memory::CoverMemory;
pub use crate::memory::SETS;
use crate::question::Question;
use amount::kind::Amount;
use family::interface::Family;
use refusal::Refusal;
use sheet::Sheet;

/// Finds the cheapest links of the sheet that enter every member of a family.
///
/// The caller lends the memory, which is filled as the answer's number of sets says; places without a
/// link and behind the last set keep what they held.
pub fn cover<T: Amount, F: Family>(
    sheet: &Sheet,
    prices: &[T],
    family: &F,
    memory: &mut CoverMemory<'_, T>,
) -> Result<Cover<T>, Refusal>
    ensures refusal { result_err result ≡ first (cover_checks (held sheet.now) (cover_asked T.Amount F.Family sheet.now prices.now family.now) (F.size family.now) (memory_sized (contents memory.old))) }
    ensures untouched { is_ok result ≡ false → contents memory.new ≡ contents memory.old }
    ensures same_memory { SameMemory memory.old memory.new }
    ensures filled { IfOk result (λ c. Filled T.parts (cover_asked T.Amount F.Family sheet.now prices.now family.now) (contents memory.old) (contents memory.new) c.sets (T.parts c.cost)) }
    ensures small { IfOk result (λ c. Small T.parts (cover_asked T.Amount F.Family sheet.now prices.now family.now) (contents memory.new).packing c.sets) }
    ensures cheapest { IfOk result (λ c. CheapestCover (cover_asked T.Amount F.Family sheet.now prices.now family.now) (F.member family.now) memory.new.marks.now (T.parts c.cost)) }
{
    sheet.check_column(prices)?;
    check_family(sheet, family, memory.fits())?;
    let question = Question {
        sheet,
        prices,
        family,
    };
    Ok(find_cover(&question, memory))
}
