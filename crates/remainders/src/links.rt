//! Links of a sheet that enter a set.
ghost use Rattle.std.specs.Prelude.{◌≡◌};
ghost use Rattle.digraph.specs.Entering.{enters_at};

use digraph::entering::enters;
use sheet::Sheet;

/// Whether there is a link with this number, and it enters `set`.
pub(crate) fn link_enters(sheet: &Sheet, k: u16, set: u64) -> bool
    ensures { result ≡ enters_at sheet.now.links.slots k set }
{
    enters(sheet.link(k), set)
}
