//! The tree family: the sets without the base that a sheet's installed tree enters exactly once.
ghost use Rattle.std.specs.Prelude.{◌≡◌, ℕ, ◌^◌, ◌<◌, true, is_some, None, MatchOption};
ghost use Rattle.std.proofs.Common.{arith};
ghost use Rattle.sheet.specs.Held.{held};
ghost use Rattle.cuts.proofs.TreeFamily.{tree_member_not_empty, tree_member_and, tree_member_or};
ghost use Rattle.family.specs.Feeds.{none_for_other_size};
ghost use Rattle.tree_shape.specs.Shapes.{tree_in};
ghost use Rattle.tree_shape.specs.Trees.{tree_of};
ghost use Rattle.tree_shape.proofs.Shapes.{shape_is_sound, shape_spans};
ghost use Rattle.tree_family.specs.Choices.{tree_smallest, tree_largest};
ghost use Rattle.tree_family.specs.Members.{Member, below};
ghost use Rattle.tree_family.specs.Smallest.{tree_smallest_found, tree_smallest_none};
ghost use Rattle.tree_family.specs.Largest.{tree_largest_found, tree_largest_none};

use crate::marked::MarkedTree;
use digraph::table::LINKS;
use family::interface::Family;
use family::reach::{Direction, steps};
use sheet::Sheet;
use tree_shape::shape::TreeShape;

/// The tree family of a sheet: the sets without the base that its installed tree enters exactly once. It keeps
/// a copy of the sheet, and how its tree lies. Only a quote makes one.
#[derive(Clone, Copy, Debug, PartialEq, Eq)]
pub struct TreeFamily {
    shape: TreeShape,
}

impl TreeFamily {
    /// The family of a sheet's installed tree; none exactly if no tree is installed. Each station but
    /// the base, alone or with all that is below it, is a member.
    pub fn of(sheet: &Sheet) -> Option<TreeFamily>
        ensures given { is_some result ≡ is_some (held sheet.now).tree }
        ensures sheet { MatchOption result ((held sheet.now).tree ≡ None) (λ f. f.shape.rooted.sheet ≡ sheet.now) }
        ensures alone { is_some result ≡ true → (v : ℕ) → 0 < v → v < (held sheet.now).stations → Member (held sheet.now) (2 ^ v) }
        ensures subtrees { is_some result ≡ true → (v : ℕ) → 0 < v → v < (held sheet.now).stations → Member (held sheet.now) (below (held sheet.now) v) }
    {
        let shape = TreeShape::of(sheet)?;
        Some(TreeFamily { shape })
    }
}

impl Family for TreeFamily {
    ghost size = { λ f. (tree_in f.shape).stations };

    ghost member = { λ f. Member (tree_in f.shape) };

    ghost small = { λ f. tree_smallest (tree_in f.shape) };

    ghost large = { λ f. tree_largest (tree_in f.shape) };

    ghost inside = { λ f set member. member.0 };

    ghost some = { λ f set member e.
        let t = tree_in f.shape in
        let some = (tree_member_not_empty t.stations t.links (tree_of t) set member).2 in
        omega arith };

    ghost common_part = { λ f x y s p q i j. let t = tree_in f.shape in tree_member_and t.stations t.links (tree_of t) (shape_spans f.shape) x y s p q i j };

    ghost union = { λ f x y s p q i j. let t = tree_in f.shape in tree_member_or t.stations t.links (tree_of t) (shape_spans f.shape) x y s p q i j };

    ghost smallest_found = { λ f h marks set sound right e. tree_smallest_found (tree_in f.shape) h (shape_is_sound f.shape) (shape_spans f.shape) sound right marks set e };

    ghost smallest_none = { λ f h marks set sound right e member. tree_smallest_none (tree_in f.shape) h (shape_is_sound f.shape) (shape_spans f.shape) sound right marks set e member };

    ghost smallest_elsewhere = { λ f h marks other. none_for_other_size (tree_in f.shape).stations h _ other };

    ghost largest_found = { λ f h marks set sound right e. tree_largest_found (tree_in f.shape) h (shape_is_sound f.shape) (shape_spans f.shape) sound right marks set e };

    ghost largest_none = { λ f h marks set sound right e member. tree_largest_none (tree_in f.shape) h (shape_is_sound f.shape) (shape_spans f.shape) sound right marks set e member };

    ghost largest_elsewhere = { λ f h marks other. none_for_other_size (tree_in f.shape).stations h _ other };

    fn stations(&self) -> u8 {
        self.shape.stations()
    }

    fn smallest(&self, sheet: &Sheet, marks: &[u8; LINKS]) -> Option<u64> {
        if sheet.stations() != self.stations() {
            return None;
        }
        let marked = steps(sheet, marks, Direction::Back);
        MarkedTree {
            shape: &self.shape,
            marked,
        }
        .first()
    }

    fn largest(&self, sheet: &Sheet, marks: &[u8; LINKS]) -> Option<u64> {
        if sheet.stations() != self.stations() {
            return None;
        }
        let marked = steps(sheet, marks, Direction::Forth);
        MarkedTree {
            shape: &self.shape,
            marked,
        }
        .most()
    }
}
