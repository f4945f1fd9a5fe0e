//! What turns a cover back, the column's checks aside.
ghost use Rattle.std.specs.Prelude.{◌≡◌};
ghost use Rattle.std.specs.Result.{result_err};
ghost use Rattle.refusal.specs.Checks.{first};
ghost use Rattle.sheet.specs.Held.{held};
ghost use Rattle.cover.specs.Ready.{family_checks};

use digraph::table::LINKS;
use family::interface::Family;
use refusal::Refusal;
use sheet::Sheet;

/// The checks of the memory, which fits or not, and of the family: its number of stations, and that links
/// of the sheet enter every member.
pub fn check_family<F: Family>(sheet: &Sheet, family: &F, memory_fits: bool) -> Result<(), Refusal>
    ensures { result_err result ≡ first (family_checks (held sheet.now) (F.small family.now (held sheet.now)) (F.size family.now) memory_fits) }
{
    if !memory_fits {
        return Err(Refusal::MemorySize);
    }
    if family.stations() != sheet.stations() {
        return Err(Refusal::FamilyStations);
    }
    match family.smallest(sheet, &[1u8; LINKS]) {
        Some(set) => Err(Refusal::MemberNotEntered(set)),
        None => Ok(()),
    }
}
