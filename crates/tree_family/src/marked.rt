//! A tree, and beside it the steps along marked links: the sets that both questions choose from, and
//! how they choose.
ghost use Rattle.std.specs.Prelude.{◌≡◌, ℕ, ◌-◌, ◌<◌, List, None, Decides};
ghost use Rattle.std.specs.List.{range_with_len};
ghost use Rattle.stations.specs.Sets.{has};
ghost use Rattle.digraph.specs.Paths.{Path};
ghost use Rattle.sheet.specs.Held.{Held};
ghost use Rattle.family.specs.Reach.{marked_steps};
ghost use Rattle.family.specs.declared.reach.Direction.TheVariants.{Forth, Back};
ghost use Rattle.tree_shape.specs.Shapes.{tree_in};
ghost use Rattle.tree_family.specs.Choices.{Inside, step_of_tree, beside as beside_of, around as around_of, first_at_depth, first_around, deepest_first, remaining as remaining_of, most_from, candidate as candidate_of};
ghost use Rattle.tree_family.specs.Meanings.{Asked, Below, StepBeside};

use digraph::link::Link;
use digraph::steps::Steps;
use family::reach::{Direction, others};
use stations::holds;
use stations::rising::rising;
use std::cmp::Reverse;
use tree_shape::shape::TreeShape;

/// A tree, and beside it the steps along marked links of a sheet of as many stations.
#[derive(Clone, Copy)]
pub struct MarkedTree<'a> {
    pub shape: &'a TreeShape,
    pub marked: Steps,
    ghost inside: { Inside (tree_in shape.now).stations marked.next },
}

impl MarkedTree<'_> {
    /// The tree link into `other` as it is gone along; none into the base, and none into `station`.
    fn tree_step(&self, way: Direction, station: u8, other: u8) -> Option<Link>
        requires { other < 40 }
        ensures { result ≡ step_of_tree way (tree_in self.now.shape.now) station other }
    {
        if other == 0 || other == station {
            return None;
        }
        Some(way.turn(Link {
            tail: self.shape.parent(other),
            head: other,
        }))
    }

    /// With the steps along marked links those along the tree links but the one into `station`.
    fn beside(&self, way: Direction, station: u8) -> Steps
        ensures { result.next ≡ beside_of way (tree_in self.now.shape.now) self.now.marked.next station }
    {
        let mut steps = self.marked;
        for other in 0..self.shape.stations() {
            steps.add(self.tree_step(way, station, other));
        }
        steps
    }

    /// The stations from which `station` is reached along marked links and the tree links but the one
    /// into it.
    fn around(&self, station: u8) -> u64
        requires { station < 40 }
        ensures value { result ≡ around_of (tree_in self.now.shape.now) self.now.marked.next station }
        ensures paths { let t = tree_in self.now.shape.now in (h : Held) (marks : List ℕ) (u : ℕ) → Asked t h station → self.now.marked.next ≡ marked_steps Back h.links marks
            → Decides (has result u) (Path (StepBeside t h marks station) u station) }
    {
        self.beside(Direction::Back, station).reached(station)
    }

    /// Of the sets around the stations of a depth the first without the base, lowest station first.
    fn first_of_level(&self, depth: u8) -> Option<u64>
        requires { depth < 40 }
        ensures { result ≡ first_at_depth (tree_in self.now.shape.now) self.now.marked.next depth }
    {
        rising(self.shape.level(depth))
            .map(|station| self.around(station))
            .find(|&set| !holds(set, 0))
    }

    /// Of the sets around stations the first without the base, deepest station first.
    pub fn first(&self) -> Option<u64>
        ensures { let t = tree_in self.now.shape.now in result ≡ first_around t self.now.marked.next (deepest_first t (t.stations - 1)) }
    {
        (1..self.shape.stations())
            .rev()
            .find_map(|depth| self.first_of_level(depth))
    }

    /// The stations below or at `station`, less those that are reached from any other along marked links
    /// and the tree links but the one into it. The base reaches every other station so: what remains is
    /// what the base does not reach.
    fn remaining(&self, station: u8) -> u64
        requires not_base { 0 < station }
        requires station { station < (tree_in self.now.shape.now).stations }
        ensures value { result ≡ remaining_of (tree_in self.now.shape.now) self.now.marked.next station }
        ensures paths { let t = tree_in self.now.shape.now in (h : Held) (marks : List ℕ) (w : ℕ) → Asked t h station → self.now.marked.next ≡ marked_steps Forth h.links marks → w < t.stations
            → Decides (has result w) (Below t w station × ((u : ℕ) → u < t.stations → (Below t u station → ⊥) → Path (StepBeside t h marks station) u w → ⊥)) }
    {
        let base_reaches = self.beside(Direction::Forth, station).reached(0);
        others(self.shape.stations(), base_reaches)
    }

    /// What remains below or at a station, if the station itself remains.
    fn candidate(&self, station: u8) -> Option<u64>
        requires not_base { 0 < station }
        requires station { station < (tree_in self.now.shape.now).stations }
        ensures { result ≡ candidate_of None (remaining_of (tree_in self.now.shape.now) self.now.marked.next station) station }
    {
        Some(self.remaining(station)).filter(|&set| holds(set, station))
    }

    /// Of the sets that remain the one with most stations, that of the lowest station among equals.
    pub fn most(&self) -> Option<u64>
        ensures { let t = tree_in self.now.shape.now in result ≡ most_from t self.now.marked.next None (range_with_len 1 (t.stations - 1)) }
    {
        (1..self.shape.stations())
            .filter_map(|station| self.candidate(station))
            .min_by_key(|set| Reverse(set.count_ones()))
    }
}
