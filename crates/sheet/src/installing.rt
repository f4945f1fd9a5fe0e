//! Installing a tree.
ghost use Rattle.std.specs.Prelude.{◌≡◌, Bool, false, map, is_ok, if◌then◌else◌, Decides};
ghost use Rattle.std.specs.Result.{result_err};
ghost use Rattle.digraph.specs.Trees.{SpanningTree};
ghost use Rattle.refusal.specs.Checks.{first};
ghost use Rattle.sheet.specs.Held.{held, with_tree};
ghost use Rattle.sheet.specs.Calls.{install_checks, tree_checks};

use crate::Sheet;
use crate::numbers::Numbers;
use crate::spanning::{names_links, spans, tree_of};
use amount::kind::Amount;
use refusal::{Refusal, TreeRefusal};

impl Sheet {
    /// Installs the tree of a list of link numbers, in place of any earlier one.
    pub fn install<T: Amount>(&mut self, prices: &[T], list: &[u16]) -> Result<(), Refusal>
        ensures refusal { (spanning : Bool) → Decides spanning (SpanningTree (held self.old).stations (held self.old).links list.now) → result_err result ≡ first (install_checks (held self.old) (map T.parts prices.now) list.now spanning) }
        ensures kept { is_ok result ≡ false → self.new ≡ self.old }
        ensures holds { held self.new ≡ (if is_ok result then with_tree (held self.old) list.now else held self.old) }
    {
        self.check_column(prices)?;
        self.plant(&list)?;
        Ok(())
    }

    /// Installs the tree of a list of link numbers, wherever they lie: the column's checks aside, this is
    /// what `install` does.
    pub fn plant<L: Numbers>(&mut self, list: &L) -> Result<(), TreeRefusal>
        ensures refusal { (spanning : Bool) → Decides spanning (SpanningTree (held self.old).stations (held self.old).links (L.numbers list.now)) → result_err result ≡ first (tree_checks (held self.old) (L.numbers list.now) spanning) }
        ensures kept { is_ok result ≡ false → self.new ≡ self.old }
        ensures holds { held self.new ≡ (if is_ok result then with_tree (held self.old) (L.numbers list.now) else held self.old) }
    {
        if list.count() != usize::from(self.stations()) - 1 {
            return Err(TreeRefusal::TreeLength);
        }
        if !names_links(self, list) {
            return Err(TreeRefusal::NoSuchLink);
        }
        if !spans(self, list) {
            return Err(TreeRefusal::StationNotReached);
        }
        *self = Sheet {
            stations: self.stations,
            links: self.links,
            tree: Some(tree_of(list)),
        };
        Ok(())
    }
}
