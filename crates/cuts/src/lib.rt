//! Sets of stations, the links that enter them, and what spanning trees have to do with both: theorems, each on a function that does nothing.
#![tactic(auto)]

ghost use Rattle.cuts.specs.Theorems.{FeedQuestionsHaveAnswers};
ghost use Rattle.cuts.specs.Theorems.{LinksThatEnterEverySetAreTrees};
ghost use Rattle.cuts.specs.Theorems.{TreeFamiliesHaveTheirLaws};
ghost use Rattle.cuts.specs.Theorems.{TreesEnterEverySet};

/// A spanning tree enters every set that has a station but not the base.
pub fn trees_enter_every_set()
    ensures { TreesEnterEverySet }
{}

/// As many links as a spanning tree has that enter every set which has a station but not the base are a spanning tree.
pub fn links_that_enter_every_set_are_trees()
    ensures { LinksThatEnterEverySetAreTrees }
{}

/// The sets without the base that a spanning tree enters just once: none is empty, with two that share a station their meet and
/// their union are among them, and so is every other station alone.
pub fn tree_families_have_their_laws()
    ensures { TreeFamiliesHaveTheirLaws }
{}

/// Whatever links are chosen: they enter every set that has a station but not the base, or there is a least and a greatest one that
/// they do not enter.
pub fn feed_questions_have_answers()
    ensures { FeedQuestionsHaveAnswers }
{}
