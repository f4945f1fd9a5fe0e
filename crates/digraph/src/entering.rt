//! Links that enter a set of stations.
ghost use Rattle.std.specs.Prelude.{◌≡◌};
ghost use Rattle.digraph.specs.Entering.{enters as enters_set};
ghost use Rattle.digraph.specs.Steps.{Low};

use crate::link::Link;
use stations::holds;

/// Whether what may be a link enters `set`: its head is in the set and its tail is not.
pub fn enters(link: Option<Link>, set: u64) -> bool
    requires { Low link }
    ensures { result ≡ enters_set link set }
{
    matches!(&link, Some(Link { tail, head }) if holds(set, *head) && !holds(set, *tail))
}
