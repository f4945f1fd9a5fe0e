//! How far a price may go.
ghost use Rattle.std.specs.Prelude.{◌≡◌, [], ◌∷◌, pos};
ghost use Rattle.amount.specs.Parts.{within};

/// Whether a part of a price lies from -100,000 to 100,000.
pub fn is_within(part: i64) -> bool
    ensures { result ≡ within 100000 (part ∷ []) }
{
    (-100_000..=100_000).contains(&part)
}
