//! Either of two families, so that one call can be handed families of different kinds.
ghost use Rattle.family.specs.Eithers.{of_either};
ghost use Rattle.family.specs.declared.either.Either.TheVariants.{First, Second};

use crate::interface::Family;
use digraph::table::LINKS;
use sheet::Sheet;

/// A family of one kind or of another.
#[derive(Clone, Copy, Debug, PartialEq, Eq)]
pub enum Either<F, G> {
    First(F),
    Second(G),
}

impl<F: Family, G: Family> Family for Either<F, G> {
    ghost size = { of_either F.Family.size G.Family.size };

    ghost member = { of_either F.Family.member G.Family.member };

    ghost small = { of_either F.Family.small G.Family.small };

    ghost large = { of_either F.Family.large G.Family.large };

    // Each law of a family of either kind is that law of the one that it is.
    ghost inside = { elim [
      | First f ↦ λ set m. F.Family.inside f set m
      | Second f ↦ λ set m. G.Family.inside f set m
    ] };

    ghost some = { elim [
      | First f ↦ λ set m. F.Family.some f set m
      | Second f ↦ λ set m. G.Family.some f set m
    ] };

    ghost common_part = { elim [
      | First f ↦ λ x y s p q i j. F.Family.common_part f x y s p q i j
      | Second f ↦ λ x y s p q i j. G.Family.common_part f x y s p q i j
    ] };

    ghost union = { elim [
      | First f ↦ λ x y s p q i j. F.Family.union f x y s p q i j
      | Second f ↦ λ x y s p q i j. G.Family.union f x y s p q i j
    ] };

    ghost smallest_found = { elim [
      | First f ↦ λ h marks set sound right e. F.Family.smallest_found f h marks set sound right e
      | Second f ↦ λ h marks set sound right e. G.Family.smallest_found f h marks set sound right e
    ] };

    ghost smallest_none = { elim [
      | First f ↦ λ h marks set sound right e m. F.Family.smallest_none f h marks set sound right e m
      | Second f ↦ λ h marks set sound right e m. G.Family.smallest_none f h marks set sound right e m
    ] };

    ghost smallest_elsewhere = { elim [
      | First f ↦ λ h marks other. F.Family.smallest_elsewhere f h marks other
      | Second f ↦ λ h marks other. G.Family.smallest_elsewhere f h marks other
    ] };

    ghost largest_found = { elim [
      | First f ↦ λ h marks set sound right e. F.Family.largest_found f h marks set sound right e
      | Second f ↦ λ h marks set sound right e. G.Family.largest_found f h marks set sound right e
    ] };

    ghost largest_none = { elim [
      | First f ↦ λ h marks set sound right e m. F.Family.largest_none f h marks set sound right e m
      | Second f ↦ λ h marks set sound right e m. G.Family.largest_none f h marks set sound right e m
    ] };

    ghost largest_elsewhere = { elim [
      | First f ↦ λ h marks other. F.Family.largest_elsewhere f h marks other
      | Second f ↦ λ h marks other. G.Family.largest_elsewhere f h marks other
    ] };

    fn stations(&self) -> u8 {
        match self {
            Either::First(f) => f.stations(),
            Either::Second(g) => g.stations(),
        }
    }

    fn smallest(&self, sheet: &Sheet, marks: &[u8; LINKS]) -> Option<u64> {
        match self {
            Either::First(f) => f.smallest(sheet, marks),
            Either::Second(g) => g.smallest(sheet, marks),
        }
    }

    fn largest(&self, sheet: &Sheet, marks: &[u8; LINKS]) -> Option<u64> {
        match self {
            Either::First(f) => f.largest(sheet, marks),
            Either::Second(g) => g.largest(sheet, marks),
        }
    }
}
