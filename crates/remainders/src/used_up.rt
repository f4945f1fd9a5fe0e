//! The links with nothing left.
ghost use Rattle.std.specs.Prelude.{◌≡◌, ℕ, ◌+◌, ◌<◌, ◌≤◌, [], ◌∷◌, ◌++◌, length, take, set, replicate, slice_index};
ghost use Rattle.stages.specs.Taking.{first_entering};
ghost use Rattle.remainders.specs.Marks.{unmarked};

use crate::links::link_enters;
use digraph::table::LINKS;
use sheet::Sheet;

/// The links with nothing left: a mark for each of them, and their numbers in the order in which they
/// came to nothing.
#[derive(Clone, Copy, Debug, PartialEq, Eq)]
pub struct UsedUp {
    pub marks: [u8; LINKS],
    // An array with a count: an `ArrayVec` is not `Copy`.
    order: [u16; LINKS],
    count: usize,
    ghost sized: { length marks ≡ 200 },
    ghost long: { length order ≡ 200 },
    ghost room: { count + unmarked marks ≡ 200 },
    // Behind the numbers stand zeros, so that of the order `==` compares the numbers alone.
    ghost clear: { (i : ℕ) → count ≤ i → slice_index order i ≡ 0 },
}

impl UsedUp {
    /// No link has come to nothing.
    pub fn none() -> UsedUp
        ensures marks { result.marks ≡ replicate 200 0 }
        ensures order { take result.count result.order ≡ [] }
    {
        UsedUp {
            marks: [0u8; LINKS],
            order: [0u16; LINKS],
            count: 0,
        }
    }

    /// Link `k` has come to nothing.
    pub fn note(&mut self, k: u16)
        requires within { k < 200 }
        requires fresh { slice_index self.old.marks k ≡ 0 }
        ensures marks { self.new.marks ≡ set self.old.marks k 1 }
        ensures order { take self.new.count self.new.order ≡ take self.old.count self.old.order ++ k ∷ [] }
    {
        self.marks[k as usize] = 1;
        self.order[self.count] = k;
        self.count += 1;
    }

    /// The link that enters `set` and came to nothing first.
    pub fn earliest(&self, sheet: &Sheet, set: u64) -> Option<u16>
        ensures { result ≡ first_entering sheet.now.links.slots set (take self.now.count self.now.order) }
    {
        self.order[..self.count]
            .iter()
            .copied()
            .find(|&k| link_enters(sheet, k, set))
    }
}
