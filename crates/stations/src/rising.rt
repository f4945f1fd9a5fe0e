//! The stations of a set, one after the other.
ghost use Rattle.std.specs.Prelude.{◌≡◌};
ghost use Rattle.stations.specs.Sets.{rising};

/// The stations of a set, rising: an iterator that takes the lowest out of those that are left.
#[derive(Clone, Copy)]
pub struct Stations {
    /// The stations that are still to come.
    pub left: u64,
}

/// The stations of `set`, rising.
pub fn rising(set: u64) -> Stations
    ensures { result.left ≡ set }
{
    Stations { left: set }
}

impl Iterator for Stations {
    ghost use Rattle.std.specs.Iterator.{YieldsFirst, item_count};

    type Item = u8;

    ghost next_gives = { YieldsFirst (λ s. rising s.left) };

    ghost remaining = { item_count (λ s. rising s.left) };

    fn next(&mut self) -> Option<u8> {
        if self.left == 0 {
            return None;
        }
        let lowest = self.left.trailing_zeros();
        self.left ^= 1 << lowest;
        Some(lowest as u8)
    }
}
