//! What a sheet tells of itself.
ghost use Rattle.std.specs.Prelude.{◌≡◌, ◌<◌, [], is_some};
ghost use Rattle.std.specs.Option.{unwrap_or};
ghost use Rattle.digraph.specs.Links.{link_at};
ghost use Rattle.sheet.specs.Held.{held};
ghost use Rattle.sheet.specs.Calls.{in_tree as tree_has};

use crate::Sheet;
use digraph::link::Link;
use digraph::table::LINKS;

impl Sheet {
    /// The number of stations.
    pub fn stations(&self) -> u8
        ensures { result ≡ (held self.now).stations }
    {
        self.stations.get()
    }

    /// The link of a number, if it names one.
    pub fn link(&self, number: u16) -> Option<Link>
        ensures { result ≡ link_at (held self.now).links number }
    {
        let k = usize::from(number);
        if k < LINKS { self.links.get(k) } else { None }
    }

    /// Whether a tree is installed.
    pub fn has_tree(&self) -> bool
        ensures { result ≡ is_some (held self.now).tree }
    {
        self.tree.is_some()
    }

    /// The numbers of the installed tree's links, in the order in which they were installed; none if no
    /// tree is installed.
    pub fn tree_links(&self) -> &[u16]
        ensures { result.now ≡ unwrap_or (held self.now).tree [] }
    {
        match &self.tree {
            None => &[],
            Some(tree) => &tree.numbers[0..usize::from(self.stations()) - 1],
        }
    }

    /// Whether a number is that of a link of the installed tree.
    pub fn in_tree(&self, number: u16) -> bool
        ensures { result ≡ tree_has (held self.now) number }
    {
        self.tree_links().contains(&number)
    }
}
