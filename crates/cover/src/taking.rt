//! Stage 2: a link with nothing left for each member that the links taken leave unentered.
ghost use Rattle.std.specs.Prelude.{◌≡◌, take as front};
ghost use Rattle.sheet.specs.Held.{held};
ghost use Rattle.cover.specs.Turns.{Findable, AllTaken};

use digraph::table::LINKS;
use family::interface::Family;
use remainders::used_up::UsedUp;
use sheet::Sheet;

/// Stage 2. While the links taken leave a member unentered, takes for the largest such member the link
/// that enters it and came to nothing first. Answers the marks of the links taken.
pub fn take<F: Family>(sheet: &Sheet, family: &F, used: &UsedUp) -> [u8; LINKS]
    requires { Findable sheet.now.links.slots (F.large family.now (held sheet.now)) (front used.now.count used.now.order) }
    ensures { AllTaken sheet.now.links.slots (F.large family.now (held sheet.now)) (front used.now.count used.now.order) result }
{
    let mut taken = [0u8; LINKS];
    while let Some(set) = family.largest(sheet, &taken) {
        let Some(link) = used.earliest(sheet, set) else {
            break;
        };
        taken[link as usize] = 1;
    }
    taken
}
