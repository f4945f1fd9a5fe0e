//! Lists of link numbers, wherever they lie: a tree's numbers are installed from a caller's slice and from the
//! bytes of a file alike.
ghost use Rattle.std.specs.Prelude.{◌≡◌, ℕ, ◌<◌, List, length, slice_index};

/// A list of link numbers that can be read place by place.
// It is read by its places, and no slice is asked for: a list may lie in pieces, or wider than its numbers are.
pub trait Numbers {
    /// The numbers, first to last.
    ghost numbers: { Self → List ℕ };

    /// How many there are.
    fn count(&self) -> usize
        ensures { result ≡ length (numbers self.now) };

    /// The one at place `i`.
    fn at(&self, i: usize) -> u16
        requires { i < length (numbers self.now) }
        ensures { result ≡ slice_index (numbers self.now) i };
}

/// A link number, however wide it is kept.
/// It is no `Into<u16>`, which relates its results to a value and gives clauses no list of numbers to name.
pub trait LinkNumber: Copy {
    /// The number.
    ghost number: { Self → ℕ };

    /// The number.
    fn number(self) -> u16
        ensures { result ≡ number self };
}

impl LinkNumber for u16 {
    ghost number = { λ n. n };

    fn number(self) -> u16 {
        self
    }
}

impl LinkNumber for u8 {
    ghost number = { λ n. n };

    fn number(self) -> u16 {
        u16::from(self)
    }
}
