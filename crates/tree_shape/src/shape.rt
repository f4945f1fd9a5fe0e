//! A sheet with a tree, and how the tree lies.
ghost use Rattle.std.specs.Prelude.{◌≡◌, ◌^◌, ◌<◌, None, MatchOption};
ghost use Rattle.sheet.specs.Held.{held};
ghost use Rattle.tree_shape.specs.Trees.{parent_of, level as level_of, levels_of};

use crate::rooted::Rooted;
use digraph::search::STATIONS;
use sheet::Sheet;

/// A sheet with a tree, and how the tree lies: the parent of each station, and the stations of each
/// depth.
#[derive(Clone, Copy, Debug, PartialEq, Eq)]
pub struct TreeShape {
    rooted: Rooted,
    levels: [u64; STATIONS],
    ghost levelled: { levels ≡ levels_of (held rooted.sheet) },
}

impl TreeShape {
    /// The shape of a sheet's installed tree, if it has one.
    pub fn of(sheet: &Sheet) -> Option<TreeShape>
        ensures { MatchOption result ((held sheet.now).tree ≡ None) (λ s. s.rooted.sheet ≡ sheet.now) }
    {
        let rooted = Rooted::of(sheet)?;
        let levels = rooted.levels();
        Some(TreeShape { rooted, levels })
    }

    /// The number of stations.
    pub fn stations(&self) -> u8
        ensures { result ≡ (held self.now.rooted.sheet).stations }
    {
        self.rooted.stations()
    }

    /// The parent of a station: the tail of the tree link into it. The base has none, which is put as 0.
    pub fn parent(&self, station: u8) -> u8
        requires { station < 40 }
        ensures { result ≡ parent_of (held self.now.rooted.sheet) station }
    {
        self.rooted.parent(station)
    }

    /// The stations to which so many tree links lead from the base.
    pub fn level(&self, depth: u8) -> u64
        requires { depth < 40 }
        ensures value { result ≡ level_of (held self.now.rooted.sheet) depth }
        ensures inside { result < 2 ^ (held self.now.rooted.sheet).stations }
    {
        self.levels[depth as usize]
    }
}
