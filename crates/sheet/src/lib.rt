//! The sheet: stations, links by number, and the tree that a fleet's masts are aimed along.
#![tactic(auto)]

ghost use Rattle.digraph.specs.Links.{Proper};
ghost use Rattle.sheet.specs.Keeps.{Spans};

use crate::tree::Tree;
use digraph::table::LinkTable;
use stations::count::StationCount;

pub mod adding;
pub mod column;
pub mod installing;
mod listed;
pub mod numbers;
pub mod opening;
pub mod pricing;
pub mod questions;
pub mod spanning;
pub mod tree;
pub mod withdrawing;

/// A sheet: 2 to 40 stations, links between them, and at most one installed tree, which is always a
/// spanning tree of links of the sheet. Prices lie in a column that the caller lends to each call.
#[derive(Debug, Clone, Copy, PartialEq, Eq)]
pub struct Sheet {
    stations: StationCount,
    links: LinkTable,
    tree: Option<Tree>,
    ghost proper: { Proper stations.count links.slots },
    ghost spans: { Spans stations.count links.slots tree },
}
