//! Stage 1: sets with their amounts, until the links with nothing left enter every member.
ghost use Rattle.std.specs.Prelude.{◌≡◌, true, take};
ghost use Rattle.stages.specs.Asked.{StopsAfter};
ghost use Rattle.stages.specs.Packing.{answer_after, order_after};
ghost use Rattle.cover.specs.Memory.{room, room_sized};
ghost use Rattle.cover.specs.Questions.{asked};
ghost use Rattle.cover.specs.Filled.{RoomFilled};

use crate::question::Question;
use amount::kind::Amount;
use family::interface::Family;
use remainders::column::{copy_prices, lower, used_up_at_first};
use remainders::tightest::tightest;
use remainders::used_up::UsedUp;

/// What stage 1 found: how many sets, and the links with nothing left.
#[derive(Clone, Copy, Debug, PartialEq, Eq)]
pub struct Packing {
    pub sets: usize,
    pub used: UsedUp,
}

/// Stage 1. Starts from the prices, and fills what is left, the sets and their amounts.
///
/// The slices are passed one by one: in a loop a proof keeps the length of a slice that is a variable, and
/// forgets that of one in a field of the memory.
pub fn pack<T: Amount, F: Family>(
    question: &Question<'_, T, F>,
    left: &mut [T],
    sets: &mut [u64],
    amounts: &mut [T],
) -> Packing
    requires { room_sized (room left.old sets.old amounts.old) ≡ true }
    ensures stops { StopsAfter (answer_after (asked question.now)) result.sets }
    ensures order { take result.used.count result.used.order ≡ order_after (asked question.now) result.sets }
    ensures filled { RoomFilled T.parts (asked question.now) (room left.old sets.old amounts.old) (room left.new sets.new amounts.new) result.sets }
{
    let sheet = question.sheet;
    copy_prices(sheet, question.prices, left);
    let mut used = used_up_at_first(sheet, left);
    // A count: the lists are the caller's, and are filled from the front.
    let mut count = 0;
    while let Some(set) = question.family.smallest(sheet, &used.marks) {
        let Some(link) = tightest(sheet, left, set) else {
            break;
        };
        let amount = left[link as usize];
        sets[count] = set;
        amounts[count] = amount;
        count += 1;
        lower(sheet, left, &mut used, set, amount);
    }
    Packing { sets: count, used }
}
