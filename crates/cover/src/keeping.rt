//! Stage 3: the links taken, without those that can be spared.
ghost use Rattle.std.specs.Prelude.{◌≡◌, ◌<◌};
ghost use Rattle.sheet.specs.Held.{held};
ghost use Rattle.stages.specs.Keeping.{spared, kept_of};

use digraph::table::LINKS;
use family::interface::Family;
use sheet::Sheet;

/// Stage 3. By falling number, drops each marked link without which every member is still entered.
pub fn keep<F: Family>(sheet: &Sheet, family: &F, marks: &mut [u8; LINKS])
    ensures { marks.new ≡ kept_of (F.large family.now (held sheet.now)) marks.old 200 }
{
    for k in (0..LINKS).rev() {
        spare(sheet, family, marks, k);
    }
}

/// Drops link `k`, if it is marked and every member is still entered without it.
fn spare<F: Family>(sheet: &Sheet, family: &F, marks: &mut [u8; LINKS], k: usize)
    requires { k < 200 }
    ensures { marks.new ≡ spared (F.large family.now (held sheet.now)) marks.old k }
{
    let mark = marks[k];
    if mark == 0 {
        return;
    }
    marks[k] = 0;
    if family.largest(sheet, marks).is_some() {
        marks[k] = mark;
    }
}
