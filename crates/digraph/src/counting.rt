//! How the links of a spanning tree lie, as a theorem.
ghost use Rattle.digraph.specs.Counting.{TreeLinksEnterEachStationOnce};

/// Just one link of a spanning tree leads into each station but the base, and none into the base.
pub fn tree_links_enter_each_station_once()
    ensures { TreeLinksEnterEachStationOnce }
{}
