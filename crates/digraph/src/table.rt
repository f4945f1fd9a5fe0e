//! The table of links, by number.
ghost use Rattle.std.specs.Prelude.{◌≡◌, ◌<◌, length, replicate, None, slice_index_or, slice_set};

use crate::link::Link;

/// How many numbers there are for links: 0 to 199.
// That a number is below it is required: a type for such a number would be made anew at each step of a loop.
pub const LINKS: usize = 200;

/// The link of each number, where there is one.
#[derive(Debug, Clone, Copy, PartialEq, Eq)]
pub struct LinkTable {
    pub slots: [Option<Link>; LINKS],
    ghost sized: { length slots ≡ 200 },
}

impl LinkTable {
    /// A table without links.
    pub fn empty() -> LinkTable
        ensures { result.slots ≡ replicate 200 None }
    {
        LinkTable {
            slots: [None; LINKS],
        }
    }

    /// The link of number `k`.
    pub fn get(&self, k: usize) -> Option<Link>
        requires { k < 200 }
        ensures { result ≡ slice_index_or self.now.slots k None }
    {
        self.slots[k]
    }

    /// Puts `link`, or none, at number `k`.
    pub fn put(&mut self, k: usize, link: Option<Link>)
        requires { k < 200 }
        ensures { self.new.slots ≡ slice_set self.old.slots k link }
    {
        self.slots[k] = link;
    }
}
