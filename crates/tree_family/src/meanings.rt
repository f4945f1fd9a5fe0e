//! What the candidates of both questions are, as theorems.
ghost use Rattle.tree_family.specs.Meanings.{AroundReach, RemainingBelow};

/// The smallest question's candidate for a station `v` has just the stations from which a path leads to `v`
/// along marked links and the tree links but the one into `v`.
pub fn around_is_what_reaches()
    ensures { AroundReach }
{}

/// The largest question's candidate for `v` has just the stations below or at `v` to which no path leads, along
/// marked links and the tree links but the one into `v`, from any station that is not below or at `v`.
pub fn remaining_is_below_less_reached()
    ensures { RemainingBelow }
{}
