//! Taking links off a sheet.
use crate::tools::*;
use std::test::Fail;

#[test]
fn a_withdrawn_number_is_free_again(rt: HostRuntime) -> Result<(), Fail> {
    let mut prices = NOTHING;
    let mut sheet = triangle(&mut prices)?;
    let column = prices;
    sheet.withdraw(&prices, 1)?;
    assert_eq!(rt; ends(sheet.link(1)), None);
    assert_eq!(rt; links_on(&sheet), 2);
    assert_eq!(rt; prices, column);
    refused(&rt, sheet.withdraw(&prices, 1), 16);
    sheet.add(&mut prices, 1, link(2, 1), cents(4))?;
    assert_eq!(rt; ends(sheet.link(1)), Some((2, 1)));
    assert_eq!(rt; prices[1].cents, 4);
    Ok(())
}

#[test]
fn withdraw_refuses_a_number_without_a_link(rt: HostRuntime) -> Result<(), Fail> {
    let mut prices = NOTHING;
    let mut sheet = triangle(&mut prices)?;
    let before = sheet;
    refused(&rt, sheet.withdraw(&prices, 3), 16);
    refused(&rt, sheet.withdraw(&prices, 200), 16);
    assert!(rt; are_alike(&sheet, &before));
    Ok(())
}

#[test]
fn withdraw_refuses_a_link_of_the_tree(rt: HostRuntime) -> Result<(), Fail> {
    let mut prices = NOTHING;
    let mut sheet = triangle(&mut prices)?;
    sheet.install(&prices, &[0, 1])?;
    let before = sheet;
    refused(&rt, sheet.withdraw(&prices, 0), 17);
    refused(&rt, sheet.withdraw(&prices, 1), 17);
    assert!(rt; are_alike(&sheet, &before));
    sheet.withdraw(&prices, 2)?;
    assert_eq!(rt; links_on(&sheet), 2);
    assert!(rt; sheet.has_tree() && sheet.in_tree(0) && sheet.in_tree(1));
    Ok(())
}
