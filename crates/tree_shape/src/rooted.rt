//! An installed tree from the base up: the parent and the depth of each station.
ghost use Rattle.std.specs.Prelude.{◌≡◌, ◌<◌, true, is_some, None, MatchOption};
ghost use Rattle.digraph.specs.Steps.{Low};
ghost use Rattle.sheet.specs.Held.{held};
ghost use Rattle.tree_shape.specs.Trees.{tree_link, with_parent, parents_of, parent_of, depth_of, levels_of};

use digraph::link::Link;
use digraph::search::STATIONS;
use digraph::table::LINKS;
use sheet::Sheet;

/// A sheet with a tree, and the parent of each station: the tail of the tree link into it. The base has
/// none, which is put as 0.
#[derive(Clone, Copy, Debug, PartialEq, Eq)]
pub struct Rooted {
    sheet: Sheet,
    parents: [u8; STATIONS],
    ghost planted: { is_some (held sheet).tree ≡ true },
    ghost parented: { parents ≡ parents_of (held sheet) },
}

impl Rooted {
    /// The installed tree of a sheet, if it has one.
    pub fn of(sheet: &Sheet) -> Option<Rooted>
        ensures { MatchOption result ((held sheet.now).tree ≡ None) (λ r. r.sheet ≡ sheet.now) }
    {
        if !sheet.has_tree() {
            return None;
        }
        Some(Rooted {
            sheet: *sheet,
            parents: parents_in(sheet),
        })
    }

    /// The number of stations.
    pub fn stations(&self) -> u8
        ensures { result ≡ (held self.now.sheet).stations }
    {
        self.sheet.stations()
    }

    /// The parent of a station.
    pub fn parent(&self, station: u8) -> u8
        requires { station < 40 }
        ensures { result ≡ parent_of (held self.now.sheet) station }
    {
        self.parents[station as usize]
    }

    /// How many tree links lead from the base to `station`.
    pub fn depth(&self, station: u8) -> u8
        requires { station < (held self.now.sheet).stations }
        ensures { result ≡ depth_of (held self.now.sheet) station }
    {
        let most = self.stations() - 1;
        let mut at = station;
        for depth in 0..most {
            if at == 0 {
                return depth;
            }
            at = self.parent(at);
        }
        most
    }

    /// The stations of each depth.
    pub fn levels(&self) -> [u64; STATIONS]
        ensures { result ≡ levels_of (held self.now.sheet) }
    {
        let mut levels = [0; STATIONS];
        for station in 0..self.stations() {
            // By index: a proof knows nothing of the places that `iter_mut` writes.
            levels[self.depth(station) as usize] |= 1 << station;
        }
        levels
    }
}

/// The link of a number, if it is one of the tree.
fn link_of_tree(sheet: &Sheet, number: u16) -> Option<Link>
    ensures { result ≡ tree_link (held sheet.now) number }
{
    sheet.link(number).filter(|_| sheet.in_tree(number))
}

/// Puts a link's tail down as the parent of its head, if there is a link.
fn put_parent(parents: &mut [u8; STATIONS], link: Option<Link>)
    requires { Low link }
    ensures { parents.new ≡ with_parent parents.old link }
{
    if let Some(Link { tail, head }) = link {
        parents[head as usize] = tail;
    }
}

/// The parent of each station.
fn parents_in(sheet: &Sheet) -> [u8; STATIONS]
    requires { is_some (held sheet.now).tree ≡ true }
    ensures { result ≡ parents_of (held sheet.now) }
{
    let mut parents = [0; STATIONS];
    for number in 0..LINKS as u16 {
        put_parent(&mut parents, link_of_tree(sheet, number));
    }
    parents
}
