//! The price column that every call is lent.
use crate::tools::*;
use sheet::Sheet;
use std::test::Fail;

#[test]
fn a_column_of_199_places_is_refused(rt: HostRuntime) -> Result<(), Fail> {
    let mut prices = NOTHING;
    let mut sheet = triangle(&mut prices)?;
    let before = sheet;
    let mut short = [cents(10); 199];
    refused(&rt, sheet.add(&mut short, 5, link(0, 1), cents(1)), 1);
    refused(&rt, sheet.reprice(&mut short, 0, cents(1)), 1);
    refused(&rt, sheet.withdraw(&short, 0), 1);
    refused(&rt, sheet.install(&short, &[0, 1]), 1);
    assert!(rt; are_alike(&sheet, &before) && short[0].cents == 10 && short[5].cents == 10);
    Ok(())
}

#[test]
fn a_column_of_201_places_is_refused(rt: HostRuntime) -> Result<(), Fail> {
    let mut prices = NOTHING;
    let mut sheet = triangle(&mut prices)?;
    let before = sheet;
    let mut long = [cents(10); 201];
    refused(&rt, sheet.add(&mut long, 5, link(0, 1), cents(1)), 1);
    refused(&rt, sheet.reprice(&mut long, 0, cents(1)), 1);
    refused(&rt, sheet.withdraw(&long, 0), 1);
    refused(&rt, sheet.install(&long, &[0, 1]), 1);
    assert!(rt; are_alike(&sheet, &before) && long[0].cents == 10 && long[5].cents == 10);
    Ok(())
}

#[test]
fn an_illegal_price_of_a_link_is_refused(rt: HostRuntime) -> Result<(), Fail> {
    let mut prices = NOTHING;
    let mut sheet = triangle(&mut prices)?;
    prices[2] = cents(100_001);
    let (before, column) = (sheet, prices);
    refused(&rt, sheet.add(&mut prices, 5, link(0, 1), cents(1)), 2);
    refused(&rt, sheet.reprice(&mut prices, 2, cents(1)), 2);
    refused(&rt, sheet.withdraw(&prices, 2), 2);
    refused(&rt, sheet.install(&prices, &[0, 1]), 2);
    assert!(rt; are_alike(&sheet, &before));
    assert_eq!(rt; prices, column);
    Ok(())
}

#[test]
fn the_first_and_the_last_price_are_looked_at(rt: HostRuntime) -> Result<(), Fail> {
    let mut prices = NOTHING;
    let mut sheet = Sheet::new();
    sheet.add(&mut prices, 0, link(0, 1), cents(1))?;
    sheet.add(&mut prices, 199, link(0, 1), cents(1))?;
    prices[0] = cents(-1);
    refused(&rt, sheet.withdraw(&prices, 199), 2);
    prices[0] = cents(1);
    prices[199] = cents(-1);
    refused(&rt, sheet.withdraw(&prices, 0), 2);
    prices[199] = cents(1);
    sheet.withdraw(&prices, 0)?;
    Ok(())
}

#[test]
fn a_free_number_may_have_any_price(rt: HostRuntime) -> Result<(), Fail> {
    let mut prices = NOTHING;
    let mut sheet = triangle(&mut prices)?;
    prices[3] = cents(-1);
    prices[199] = cents(100_001);
    sheet.add(&mut prices, 5, link(0, 1), cents(1))?;
    sheet.reprice(&mut prices, 5, cents(2))?;
    sheet.withdraw(&prices, 5)?;
    sheet.install(&prices, &[0, 1])?;
    assert!(rt; prices[3].cents == -1 && prices[199].cents == 100_001);
    Ok(())
}
