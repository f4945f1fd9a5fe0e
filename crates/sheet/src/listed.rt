//! Slices as lists of link numbers: a caller's `u16`s, the bytes of a file.
ghost use Rattle.std.specs.Prelude.{map};

use crate::numbers::{LinkNumber, Numbers};

impl<N: LinkNumber> Numbers for &[N] {
    ghost numbers = { λ list. map N.number list.now };

    fn count(&self) -> usize {
        self.len()
    }

    fn at(&self, i: usize) -> u16 {
        self[i].number()
    }
}
