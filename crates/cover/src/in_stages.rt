//! The three stages, one after another.
ghost use Rattle.std.specs.Prelude.{◌≡◌, true};
ghost use Rattle.stages.specs.Theorems.{CheapestCover};
ghost use Rattle.cover.specs.Lent.{contents, SameMemory};
ghost use Rattle.cover.specs.Memory.{memory_sized};
ghost use Rattle.cover.specs.Questions.{asked};
ghost use Rattle.cover.specs.Filled.{Filled, Small};

use crate::keeping::keep;
use crate::memory::CoverMemory;
use crate::packing::pack;
use crate::question::Question;
use crate::taking::take;
use amount::kind::Amount;
use family::interface::Family;
use remainders::cost::cost_of_marked;

/// What a cover answers.
#[derive(Clone, Copy, Debug, PartialEq, Eq)]
pub struct Cover<T> {
    /// What the links of the cover cost.
    pub cost: T,
    /// How many sets stage 1 found.
    pub sets: usize,
}

/// Finds a cover in three stages, once nothing turned it back.
pub fn find_cover<T: Amount, F: Family>(
    question: &Question<'_, T, F>,
    memory: &mut CoverMemory<'_, T>,
) -> Cover<T>
    requires { memory_sized (contents memory.old) ≡ true }
    ensures same_memory { SameMemory memory.old memory.new }
    ensures filled { Filled T.parts (asked question.now) (contents memory.old) (contents memory.new) result.sets (T.parts result.cost) }
    ensures small { Small T.parts (asked question.now) (contents memory.new).packing result.sets }
    ensures cheapest { CheapestCover (asked question.now) (F.member question.now.family.now) memory.new.marks.now (T.parts result.cost) }
{
    let packing = pack(question, memory.left, memory.sets, memory.amounts);
    let mut kept = take(question.sheet, question.family, &packing.used);
    keep(question.sheet, question.family, &mut kept);
    memory.marks.copy_from_slice(&kept);
    Cover {
        cost: cost_of_marked(question.prices, &kept),
        sets: packing.sets,
    }
}
