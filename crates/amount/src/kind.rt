//! What every kind of amount offers: everything above this crate is written once, over this trait.
ghost use Rattle.std.specs.Prelude.{◌≡◌, ℕ, ◌<◌, Bool, List, length, ℤ};
ghost use Rattle.amount.specs.Parts.{plus, minus, below, nothing as no_amount, legal as legal_price, Fitting};
ghost use Rattle.amount.specs.Records.{length_of_record, price_at};

/// A kind of amount. An amount means a list of whole numbers, its parts: as many as its kind has, and
/// one at least. Each operation does to the parts what its contract says whenever every part of the
/// result fits a signed 64-bit number; beyond that its answer is free.
pub trait Amount: Copy {
    /// How many parts an amount of this kind has.
    ghost width: { ℕ };

    /// The parts of an amount, the most significant first.
    ghost parts: { Self → List ℤ };

    /// The length of a link record with a price of this kind.
    const RECORD: usize;

    /// `RECORD` in clauses.
    ghost RECORD: { ℕ };

    /// The byte that names this kind in a file.
    const KIND: u8;

    /// `KIND` in clauses.
    ghost KIND: { ℕ };

    fn nothing() -> Self
        ensures { parts result ≡ no_amount width };

    fn plus(self, other: Self) -> Self
        ensures { Fitting (plus (parts self) (parts other)) → parts result ≡ plus (parts self) (parts other) };

    fn minus(self, other: Self) -> Self
        ensures { Fitting (minus (parts self) (parts other)) → parts result ≡ minus (parts self) (parts other) };

    /// Whether `self` is less than `other`.
    fn is_below(self, other: Self) -> bool
        ensures { result ≡ below (parts self) (parts other) };

    /// Whether `self` may be charged: not below nothing, and no part beyond 100,000 either way.
    fn is_legal(self) -> bool
        ensures { result ≡ legal_price (parts self) };

    /// The price in a link record.
    fn read(bytes: &[u8]) -> Self
        requires { length bytes.now ≡ length_of_record width }
        ensures { parts result ≡ price_at width bytes.now };

    ghost some_part: { 0 < width };

    ghost as_wide: { (x : Self) → length (parts x) ≡ width };

    /// A record is as long as `read` takes it to be.
    ghost as_long: { RECORD ≡ length_of_record width };
}
