//! An installed tree.

/// How many links a tree has at most: one fewer than 40 stations.
pub const TREE_LINKS: usize = 39;

/// The numbers of a tree's links, in the first places, one fewer than the sheet has stations.
/// It keeps a whole array, and its length beside it as the sheet's stations: a sheet is a plain `Copy` value.
#[derive(Debug, Clone, Copy, PartialEq, Eq)]
pub struct Tree {
    pub numbers: [u16; TREE_LINKS],
}
