//! Installing trees.
use crate::tools::*;
use sheet::Sheet;
use std::test::Fail;

/// The numbers 0 to 38.
const CHAIN: [u16; 39] = [
    0, 1, 2, 3, 4, 5, 6, 7, 8, 9, 10, 11, 12, 13, 14, 15, 16, 17, 18, 19, 20, 21, 22, 23, 24, 25,
    26, 27, 28, 29, 30, 31, 32, 33, 34, 35, 36, 37, 38,
];

#[test]
fn an_installed_tree_has_its_links(rt: HostRuntime) -> Result<(), Fail> {
    let mut prices = NOTHING;
    let mut sheet = triangle(&mut prices)?;
    let column = prices;
    sheet.install(&prices, &[1, 0])?;
    assert!(rt; sheet.has_tree() && sheet.in_tree(0) && sheet.in_tree(1));
    assert!(rt; !sheet.in_tree(2) && !sheet.in_tree(3) && !sheet.in_tree(200));
    assert_eq!(rt; links_on(&sheet), 3);
    assert_eq!(rt; prices, column);
    Ok(())
}

#[test]
fn a_second_tree_replaces_the_first(rt: HostRuntime) -> Result<(), Fail> {
    let mut prices = NOTHING;
    let mut sheet = triangle(&mut prices)?;
    sheet.install(&prices, &[0, 1])?;
    sheet.install(&prices, &[0, 2])?;
    assert!(rt; sheet.in_tree(0) && !sheet.in_tree(1) && sheet.in_tree(2));
    sheet.withdraw(&prices, 1)?;
    Ok(())
}

#[test]
fn a_tree_has_one_link_fewer_than_stations(rt: HostRuntime) -> Result<(), Fail> {
    let mut prices = NOTHING;
    let mut sheet = triangle(&mut prices)?;
    refused(&rt, sheet.install(&prices, &[]), 18);
    refused(&rt, sheet.install(&prices, &[0]), 18);
    refused(&rt, sheet.install(&prices, &[0, 1, 2]), 18);
    refused(&rt, sheet.install(&prices, &[0, 1, 200]), 18);
    assert!(rt; !sheet.has_tree());
    Ok(())
}

#[test]
fn a_tree_is_of_links(rt: HostRuntime) -> Result<(), Fail> {
    let mut prices = NOTHING;
    let mut sheet = triangle(&mut prices)?;
    refused(&rt, sheet.install(&prices, &[3, 3]), 16);
    refused(&rt, sheet.install(&prices, &[0, 3]), 16);
    refused(&rt, sheet.install(&prices, &[200, 1]), 16);
    assert!(rt; !sheet.has_tree());
    Ok(())
}

#[test]
fn a_tree_reaches_every_station(rt: HostRuntime) -> Result<(), Fail> {
    let mut prices = NOTHING;
    let mut sheet = triangle(&mut prices)?;
    sheet.add(&mut prices, 3, link(2, 0), cents(1))?;
    refused(&rt, sheet.install(&prices, &[0, 0]), 19);
    refused(&rt, sheet.install(&prices, &[1, 2]), 19);
    refused(&rt, sheet.install(&prices, &[0, 3]), 19);
    assert!(rt; !sheet.has_tree());
    Ok(())
}

#[test]
fn a_cycle_away_from_the_base_is_no_tree(rt: HostRuntime) -> Result<(), Fail> {
    let mut prices = NOTHING;
    let mut sheet = Sheet::new();
    sheet.open(4)?;
    sheet.add(&mut prices, 0, link(0, 1), cents(1))?;
    sheet.add(&mut prices, 1, link(2, 3), cents(1))?;
    sheet.add(&mut prices, 2, link(3, 2), cents(1))?;
    refused(&rt, sheet.install(&prices, &[0, 1, 2]), 19);
    sheet.add(&mut prices, 3, link(1, 3), cents(1))?;
    sheet.install(&prices, &[0, 3, 2])?;
    Ok(())
}

#[test]
fn a_refused_tree_leaves_the_old_one(rt: HostRuntime) -> Result<(), Fail> {
    let mut prices = NOTHING;
    let mut sheet = triangle(&mut prices)?;
    sheet.install(&prices, &[0, 1])?;
    let before = sheet;
    refused(&rt, sheet.install(&prices, &[0]), 18);
    refused(&rt, sheet.install(&prices, &[0, 3]), 16);
    refused(&rt, sheet.install(&prices, &[2, 2]), 19);
    assert!(rt; are_alike(&sheet, &before));
    Ok(())
}

#[test]
fn forty_stations_have_a_tree_of_39_links(rt: HostRuntime) -> Result<(), Fail> {
    let mut prices = NOTHING;
    let mut sheet = chain(&mut prices, 39)?;
    sheet.install(&prices, &CHAIN)?;
    assert!(rt; sheet.in_tree(0) && sheet.in_tree(38) && !sheet.in_tree(39));
    Ok(())
}

#[test]
fn the_last_of_forty_stations_is_looked_for(rt: HostRuntime) -> Result<(), Fail> {
    let mut prices = NOTHING;
    let mut sheet = chain(&mut prices, 38)?;
    sheet.add(&mut prices, 38, link(39, 38), cents(1))?;
    refused(&rt, sheet.install(&prices, &CHAIN), 19);
    assert!(rt; !sheet.has_tree());
    Ok(())
}
