//! Adding links.
use crate::tools::*;
use amount::cents_minutes::CentsMinutes;
use sheet::Sheet;
use std::test::Fail;

#[test]
fn a_link_and_its_price_are_kept(rt: HostRuntime) -> Result<(), Fail> {
    let mut prices = NOTHING;
    let mut sheet = Sheet::new();
    sheet.add(&mut prices, 7, link(0, 1), cents(25))?;
    assert_eq!(rt; ends(sheet.link(7)), Some((0, 1)));
    assert_eq!(rt; links_on(&sheet), 1);
    assert_eq!(rt; prices[7].cents, 25);
    prices[7] = cents(0);
    assert_eq!(rt; prices, NOTHING);
    Ok(())
}

#[test]
fn cents_go_from_0_to_100_000(rt: HostRuntime) -> Result<(), Fail> {
    let mut prices = NOTHING;
    let mut sheet = Sheet::new();
    refused(
        &rt,
        sheet.add(&mut prices, 0, link(0, 1), cents(100_001)),
        15,
    );
    refused(&rt, sheet.add(&mut prices, 0, link(0, 1), cents(-1)), 15);
    sheet.add(&mut prices, 0, link(0, 1), cents(100_000))?;
    sheet.add(&mut prices, 1, link(0, 1), cents(0))?;
    assert_eq!(rt; prices[0].cents, 100_000);
    Ok(())
}

fn both(cents: i64, minutes: i64) -> CentsMinutes {
    CentsMinutes { cents, minutes }
}

#[test]
fn minutes_may_be_below_0_where_cents_are_above(rt: HostRuntime) -> Result<(), Fail> {
    let mut prices = [both(0, 0); 200];
    let mut sheet = Sheet::new();
    refused(&rt, sheet.add(&mut prices, 0, link(0, 1), both(0, -1)), 15);
    refused(
        &rt,
        sheet.add(&mut prices, 0, link(0, 1), both(1, -100_001)),
        15,
    );
    refused(
        &rt,
        sheet.add(&mut prices, 0, link(0, 1), both(1, 100_001)),
        15,
    );
    sheet.add(&mut prices, 0, link(0, 1), both(1, -1))?;
    sheet.add(&mut prices, 1, link(0, 1), both(0, 0))?;
    assert_eq!(rt; prices[0].cents, 1);
    assert_eq!(rt; prices[0].minutes, -1);
    Ok(())
}

#[test]
fn numbers_end_at_199(rt: HostRuntime) -> Result<(), Fail> {
    let mut prices = NOTHING;
    let mut sheet = Sheet::new();
    refused(&rt, sheet.add(&mut prices, 200, link(0, 1), cents(3)), 11);
    refused(
        &rt,
        sheet.add(&mut prices, 65_535, link(0, 1), cents(3)),
        11,
    );
    sheet.add(&mut prices, 199, link(0, 1), cents(3))?;
    assert_eq!(rt; ends(sheet.link(199)), Some((0, 1)));
    assert_eq!(rt; ends(sheet.link(200)), None);
    assert_eq!(rt; prices[199].cents, 3);
    Ok(())
}

#[test]
fn a_number_in_use_is_refused(rt: HostRuntime) -> Result<(), Fail> {
    let mut prices = NOTHING;
    let mut sheet = Sheet::new();
    sheet.add(&mut prices, 5, link(0, 1), cents(3))?;
    refused(&rt, sheet.add(&mut prices, 5, link(1, 0), cents(4)), 12);
    assert_eq!(rt; ends(sheet.link(5)), Some((0, 1)));
    assert_eq!(rt; prices[5].cents, 3);
    Ok(())
}

#[test]
fn both_ends_are_stations(rt: HostRuntime) -> Result<(), Fail> {
    let mut prices = NOTHING;
    let mut sheet = Sheet::new();
    sheet.open(3)?;
    refused(&rt, sheet.add(&mut prices, 0, link(3, 0), cents(1)), 13);
    refused(&rt, sheet.add(&mut prices, 0, link(0, 3), cents(1)), 13);
    sheet.add(&mut prices, 0, link(2, 1), cents(1))?;
    sheet.add(&mut prices, 1, link(1, 2), cents(1))?;
    Ok(())
}

#[test]
fn a_link_leads_elsewhere(rt: HostRuntime) {
    let mut prices = NOTHING;
    let mut sheet = Sheet::new();
    refused(&rt, sheet.add(&mut prices, 0, link(0, 0), cents(1)), 14);
    refused(&rt, sheet.add(&mut prices, 0, link(1, 1), cents(1)), 14);
}

#[test]
fn parallel_links_and_links_into_the_base_pass(rt: HostRuntime) -> Result<(), Fail> {
    let mut prices = NOTHING;
    let mut sheet = Sheet::new();
    sheet.add(&mut prices, 0, link(0, 1), cents(1))?;
    sheet.add(&mut prices, 1, link(0, 1), cents(2))?;
    sheet.add(&mut prices, 2, link(1, 0), cents(3))?;
    assert_eq!(rt; links_on(&sheet), 3);
    Ok(())
}

#[test]
fn the_first_check_that_fails_refuses(rt: HostRuntime) -> Result<(), Fail> {
    let mut prices = NOTHING;
    let mut sheet = Sheet::new();
    sheet.add(&mut prices, 5, link(0, 1), cents(1))?;
    refused(&rt, sheet.add(&mut prices, 200, link(2, 2), cents(-1)), 11);
    refused(&rt, sheet.add(&mut prices, 5, link(2, 2), cents(-1)), 12);
    refused(&rt, sheet.add(&mut prices, 0, link(2, 2), cents(-1)), 13);
    refused(&rt, sheet.add(&mut prices, 0, link(1, 1), cents(-1)), 14);
    prices[5] = cents(-1);
    refused(&rt, sheet.add(&mut prices, 200, link(0, 1), cents(1)), 2);
    refused(
        &rt,
        sheet.add(&mut prices[0..199], 200, link(0, 1), cents(1)),
        1,
    );
    Ok(())
}

#[test]
fn a_refused_add_changes_nothing(rt: HostRuntime) -> Result<(), Fail> {
    let mut prices = NOTHING;
    let mut sheet = triangle(&mut prices)?;
    sheet.install(&prices, &[0, 1])?;
    let (before, column) = (sheet, prices);
    refused(&rt, sheet.add(&mut prices, 200, link(0, 1), cents(7)), 11);
    refused(&rt, sheet.add(&mut prices, 2, link(0, 1), cents(7)), 12);
    refused(&rt, sheet.add(&mut prices, 3, link(0, 3), cents(7)), 13);
    refused(&rt, sheet.add(&mut prices, 3, link(2, 2), cents(7)), 14);
    refused(
        &rt,
        sheet.add(&mut prices, 3, link(0, 1), cents(100_001)),
        15,
    );
    assert!(rt; are_alike(&sheet, &before));
    assert_eq!(rt; prices, column);
    Ok(())
}
