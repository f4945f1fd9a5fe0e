//! The link that holds a set down.
ghost use Rattle.std.specs.Prelude.{◌≡◌, ◌<◌, cond, [], map, length, None};
ghost use Rattle.stages.specs.Packing.{tighter as tighter_of, tightest as tightest_of};
ghost use Rattle.remainders.specs.Marks.{Numbered};

use crate::links::link_enters;
use amount::kind::Amount;
use digraph::table::LINKS;
use sheet::Sheet;

/// Of the links that enter `set` the one with least left, the lowest number among equals.
pub fn tightest<T: Amount>(sheet: &Sheet, left: &[T], set: u64) -> Option<u16>
    requires { length left.now ≡ 200 }
    ensures { result ≡ tightest_of sheet.now.links.slots (map T.parts left.now) set }
{
    // No `filter` and `reduce`: that the numbers that each call of the closure gets are below 200, which its
    // reads of the column need, was tried and is not proved.
    let mut best = None;
    for k in 0..LINKS as u16 {
        if link_enters(sheet, k, set) {
            best = tighter(left, best, k);
        }
    }
    best
}

/// Of two links the one with less left, the first among equals.
fn tighter<T: Amount>(left: &[T], best: Option<u16>, k: u16) -> Option<u16>
    requires sized { length left.now ≡ 200 }
    requires numbered { Numbered best }
    requires within { k < 200 }
    ensures { result ≡ tighter_of (map T.parts left.now) best k }
{
    match best {
        Some(j) if !left[k as usize].is_below(left[j as usize]) => best,
        _ => Some(k),
    }
}
