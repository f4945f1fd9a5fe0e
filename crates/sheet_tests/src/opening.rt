//! Making and opening a sheet.
use crate::tools::*;
use sheet::Sheet;
use std::test::Fail;

#[test]
fn a_new_sheet_is_empty(rt: HostRuntime) {
    let sheet = Sheet::new();
    assert_eq!(rt; sheet.stations(), 2);
    assert_eq!(rt; links_on(&sheet), 0);
    assert!(rt; !sheet.has_tree());
    assert!(rt; !sheet.in_tree(0));
}

#[test]
fn open_takes_2_to_40_stations(rt: HostRuntime) -> Result<(), Fail> {
    let mut sheet = Sheet::new();
    refused(&rt, sheet.open(0), 10);
    refused(&rt, sheet.open(1), 10);
    refused(&rt, sheet.open(41), 10);
    refused(&rt, sheet.open(255), 10);
    sheet.open(40)?;
    assert_eq!(rt; sheet.stations(), 40);
    sheet.open(2)?;
    assert_eq!(rt; sheet.stations(), 2);
    Ok(())
}

#[test]
fn open_clears_links_and_tree(rt: HostRuntime) -> Result<(), Fail> {
    let mut prices = NOTHING;
    let mut sheet = triangle(&mut prices)?;
    sheet.install(&prices, &[0, 1])?;
    sheet.open(3)?;
    assert_eq!(rt; sheet.stations(), 3);
    assert_eq!(rt; links_on(&sheet), 0);
    assert!(rt; !sheet.has_tree() && !sheet.in_tree(0) && !sheet.in_tree(1));
    Ok(())
}

#[test]
fn a_refused_open_changes_nothing(rt: HostRuntime) -> Result<(), Fail> {
    let mut prices = NOTHING;
    let mut sheet = triangle(&mut prices)?;
    sheet.install(&prices, &[0, 1])?;
    let before = sheet;
    refused(&rt, sheet.open(41), 10);
    refused(&rt, sheet.open(1), 10);
    assert!(rt; are_alike(&sheet, &before));
    Ok(())
}
