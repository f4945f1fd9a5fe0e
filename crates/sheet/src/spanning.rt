//! Whether a list of links is a spanning tree: are all stations reached from the base along it?
ghost use Rattle.std.specs.Prelude.{◌≡◌, ◌+◌, ◌≤◌, true, map, length, take, replicate, Decides};
ghost use Rattle.digraph.specs.Links.{link_at};
ghost use Rattle.digraph.specs.Steps.{steps_from};
ghost use Rattle.digraph.specs.Trees.{SpanningTree};
ghost use Rattle.sheet.specs.Held.{held};
ghost use Rattle.sheet.specs.Calls.{all_links};

use crate::Sheet;
use crate::numbers::Numbers;
use crate::tree::{TREE_LINKS, Tree};
use digraph::steps::Steps;

/// Whether every number of the list names a link of the sheet.
pub fn names_links<L: Numbers>(sheet: &Sheet, list: &L) -> bool
    ensures { result ≡ all_links (held sheet.now).links (L.numbers list.now) }
{
    (0..list.count()).all(|i| sheet.link(list.at(i)).is_some())
}

/// Whether a list of links of the sheet, one fewer than the stations, is a spanning tree.
pub fn spans<L: Numbers>(sheet: &Sheet, list: &L) -> bool
    requires count { length (L.numbers list.now) + 1 ≡ (held sheet.now).stations }
    requires named { all_links (held sheet.now).links (L.numbers list.now) ≡ true }
    ensures { Decides result (SpanningTree (held sheet.now).stations (held sheet.now).links (L.numbers list.now)) }
{
    steps_along(sheet, list).reached(0) == (1 << sheet.stations()) - 1
}

/// For each station those that one link of the list leads to.
fn steps_along<L: Numbers>(sheet: &Sheet, list: &L) -> Steps
    ensures { result.next ≡ steps_from (replicate 40 0) (map (link_at (held sheet.now).links) (L.numbers list.now)) }
{
    let mut steps = Steps::none();
    for i in 0..list.count() {
        steps.add(sheet.link(list.at(i)));
    }
    steps
}

/// The list as a tree to keep.
pub fn tree_of<L: Numbers>(list: &L) -> Tree
    requires { length (L.numbers list.now) ≤ 39 }
    ensures { take (length (L.numbers list.now)) result.numbers ≡ L.numbers list.now }
{
    let mut numbers = [0; TREE_LINKS];
    for i in 0..list.count() {
        numbers[i] = list.at(i);
    }
    Tree { numbers }
}
