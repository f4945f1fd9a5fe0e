//! The laws of amounts, proved once for every number of parts.
ghost use Rattle.amount.specs.Laws.{AmountsAreOrderedGroups};

/// Amounts of as many parts form an ordered abelian group. This function does nothing: its contract is
/// the theorem.
pub fn amounts_are_ordered_groups()
    ensures { AmountsAreOrderedGroups }
{}
