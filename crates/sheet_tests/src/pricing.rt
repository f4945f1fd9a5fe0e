//! Pricing a link anew.
use crate::tools::*;
use std::test::Fail;

#[test]
fn reprice_writes_one_price(rt: HostRuntime) -> Result<(), Fail> {
    let mut prices = NOTHING;
    let sheet = triangle(&mut prices)?;
    let column = prices;
    sheet.reprice(&mut prices, 1, cents(100_000))?;
    assert_eq!(rt; prices[1].cents, 100_000);
    sheet.reprice(&mut prices, 1, cents(0))?;
    assert_eq!(rt; prices[1].cents, 0);
    prices[1] = cents(10);
    assert_eq!(rt; prices, column);
    Ok(())
}

#[test]
fn reprice_refuses_a_number_without_a_link(rt: HostRuntime) -> Result<(), Fail> {
    let mut prices = NOTHING;
    let sheet = triangle(&mut prices)?;
    let column = prices;
    refused(&rt, sheet.reprice(&mut prices, 3, cents(5)), 16);
    refused(&rt, sheet.reprice(&mut prices, 200, cents(5)), 16);
    refused(&rt, sheet.reprice(&mut prices, 3, cents(-5)), 16);
    assert_eq!(rt; prices, column);
    Ok(())
}

#[test]
fn reprice_refuses_an_illegal_price(rt: HostRuntime) -> Result<(), Fail> {
    let mut prices = NOTHING;
    let sheet = triangle(&mut prices)?;
    let column = prices;
    refused(&rt, sheet.reprice(&mut prices, 1, cents(100_001)), 15);
    refused(&rt, sheet.reprice(&mut prices, 1, cents(-1)), 15);
    assert_eq!(rt; prices, column);
    Ok(())
}
