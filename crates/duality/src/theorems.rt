//! The theorems about covers, and about trees and the prices that keep them cheapest. These functions do nothing: each contract is a theorem.
ghost use Rattle.duality.specs.Theorems.{EnteringOftenCostsAsOften, KeptLinksAreCheapest, LinksTakenLieApart, MeetAndUnionAreEnteredNoMore, PackedAmountsFit, PackedSetsAreFewAndNested, NoKeptLinkCanBeSpared};
ghost use Rattle.duality.specs.Trees.{NearestListsChangeAtMost, NoListKeepsTheTreeForLess, QuotesKeepTheTree, RevisedPricesKeepTheTree};

/// The meet and the union of two sets are entered together no more often than the two sets.
pub fn meet_and_union_are_entered_no_more()
    ensures { MeetAndUnionAreEnteredNoMore }
{}

/// The sets of the first stage lie apart or inside one another, and are fewer than two for each station.
pub fn packed_sets_are_few_and_nested()
    ensures { PackedSetsAreFewAndNested }
{}

/// Whatever the first stage leaves of a price, and each of its amounts, fits a signed 64-bit number, if the prices are small.
pub fn packed_amounts_fit()
    ensures { PackedAmountsFit }
{}

/// Links that enter each set of the first stage so often cost at least the amounts of the sets so often.
pub fn entering_often_costs_as_often()
    ensures { EnteringOftenCostsAsOften }
{}

/// No two links that the second stage takes lead into one station, and no two enter one set of the first stage.
pub fn links_taken_lie_apart()
    ensures { LinksTakenLieApart }
{}

/// Links kept of those taken, that still enter every member, cost just the amounts of the first stage, and nothing that enters every member costs less.
pub fn kept_links_are_cheapest()
    ensures { KeptLinksAreCheapest }
{}

/// What the third stage keeps still enters every member, and no link kept can be spared.
pub fn no_kept_link_can_be_spared()
    ensures { NoKeptLinkCanBeSpared }
{}

/// With what the first stage leaves of its links' prices taken off, a spanning tree is cheapest; the prices then lie off by what the tree costs more than the amounts of the sets.
pub fn revised_prices_keep_the_tree()
    ensures { RevisedPricesKeepTheTree }
{}

/// The revised prices of a quote keep the tree cheapest and lie off by just the concession: what the tree costs more than the links kept.
pub fn quotes_keep_the_tree()
    ensures { QuotesKeepTheTree }
{}

/// No list of prices, of whatever whole numbers, at which the tree is cheapest lies off by less than the concession.
pub fn no_list_keeps_the_tree_for_less()
    ensures { NoListKeepsTheTreeForLess }
{}

/// A list of prices that keeps the tree for just the concession changes nothing on links in both the tree and the cover or in neither,
/// raises no link of the tree and lowers none of the cover, and the two cost the same at it.
pub fn nearest_lists_change_at_most()
    ensures { NearestListsChangeAtMost }
{}
