//! What a family of station sets is.
ghost use Rattle.std.specs.Prelude.{◌≡◌, ℕ, ◌^◌, ◌<◌, List, Some, None, Option as Perhaps, ◌≢◌, bit_and, bit_or};
ghost use Rattle.stations.specs.Sets.{In};
ghost use Rattle.digraph.specs.Entering.{Entered};
ghost use Rattle.sheet.specs.Held.{Held, held};
ghost use Rattle.sheet.specs.Sound.{Sound};
ghost use Rattle.family.specs.Laws.{Smallest, Largest};

use digraph::table::LINKS;
use sheet::Sheet;

/// A family of station sets. It is made for a number of stations and means a collection of non-empty
/// sets of them, its members; where two members share a station, their common part and their union are
/// members too. Given marked links of a sheet of that many stations it answers two questions; on any
/// other sheet it answers none to both. A byte other than 0 marks a link, and a mark at a number
/// without a link marks nothing.
pub trait Family {
    /// The number of stations that the family is made for.
    ghost size: { Self → ℕ };

    /// A set is a member.
    ghost member: { Self → ℕ → Type 0 };

    /// What the smallest question answers, by what the sheet holds and the marks.
    ghost small: { Self → Held → List ℕ → Perhaps ℕ };

    /// What the largest question answers.
    ghost large: { Self → Held → List ℕ → Perhaps ℕ };

    /// The number of stations that the family is made for.
    fn stations(&self) -> u8
        ensures { result ≡ size self.now };

    // Each family tests the sheet's size itself: to test it here, once, would take a second pair of
    // questions for every family to answer.

    /// A member that no marked link enters and of which no proper part is such a member; none if every
    /// member is entered.
    fn smallest(&self, sheet: &Sheet, marks: &[u8; LINKS]) -> Option<u64>
        ensures { result ≡ small self.now (held sheet.now) marks.now };

    /// A member that no marked link enters and that is no proper part of another such member; none if
    /// every member is entered.
    fn largest(&self, sheet: &Sheet, marks: &[u8; LINKS]) -> Option<u64>
        ensures { result ≡ large self.now (held sheet.now) marks.now };

    ghost inside: { (f : Self) (set : ℕ) → member f set → set < 2 ^ size f };

    ghost some: { (f : Self) (set : ℕ) → member f set → set ≡ 0 → ⊥ };

    ghost common_part: { (f : Self) (x y s : ℕ) → member f x → member f y → In x s → In y s → member f (bit_and x y) };

    ghost union: { (f : Self) (x y s : ℕ) → member f x → member f y → In x s → In y s → member f (bit_or x y) };

    ghost smallest_found: { (f : Self) (h : Held) (marks : List ℕ) (set : ℕ) → Sound h → h.stations ≡ size f → small f h marks ≡ Some set → Smallest (member f) h.links marks set };

    ghost smallest_none: { (f : Self) (h : Held) (marks : List ℕ) (set : ℕ) → Sound h → h.stations ≡ size f → small f h marks ≡ None → member f set → Entered h.links marks set };

    ghost smallest_elsewhere: { (f : Self) (h : Held) (marks : List ℕ) → (h.stations ≢ size f) → small f h marks ≡ None };

    ghost largest_found: { (f : Self) (h : Held) (marks : List ℕ) (set : ℕ) → Sound h → h.stations ≡ size f → large f h marks ≡ Some set → Largest (member f) h.links marks set };

    ghost largest_none: { (f : Self) (h : Held) (marks : List ℕ) (set : ℕ) → Sound h → h.stations ≡ size f → large f h marks ≡ None → member f set → Entered h.links marks set };

    ghost largest_elsewhere: { (f : Self) (h : Held) (marks : List ℕ) → (h.stations ≢ size f) → large f h marks ≡ None };
}
