//! Sheets without a tree, and sheets other than the family's own.
use crate::tools::{BARE, answers, sheet_of};
use crate::tree::tools::*;
use family::interface::Family;
use std::test::Fail;
use tree_family::tree::TreeFamily;

#[test]
fn without_a_tree_there_is_no_family(rt: HostRuntime) -> Result<(), Fail> {
    assert!(rt; TreeFamily::of(&sheet_of(2, &[(0, 1)])?).is_none());
    Ok(())
}

#[test]
fn a_family_tells_its_number_of_stations(rt: HostRuntime) -> Result<(), Fail> {
    assert_eq!(rt;
        family_of(&planted(3, &[(0, 1), (1, 2)], &[0, 1])?)?.stations(),
        3
    );
    Ok(())
}

#[test]
fn another_number_of_stations_has_no_answer(rt: HostRuntime) -> Result<(), Fail> {
    let family = family_of(&planted(3, &[(0, 1), (1, 2)], &[0, 1])?)?;
    assert_eq!(rt;
        answers(&family, &sheet_of(4, &[(0, 3)])?, &BARE),
        (None, None)
    );
    assert_eq!(rt;
        answers(&family, &sheet_of(2, &[(0, 1)])?, &BARE),
        (None, None)
    );
    Ok(())
}

/// The marks are read on the sheet that is asked about, and the tree stays the family's own.
#[test]
fn another_sheet_of_as_many_stations(rt: HostRuntime) -> Result<(), Fail> {
    let family = family_of(&planted(3, &[(0, 1), (1, 2)], &[0, 1])?)?;
    let other = sheet_of(3, &[(0, 2)])?;
    assert_eq!(rt; answers(&family, &other, &BARE), (Some(0b100), Some(0b110)));
    assert_eq!(rt; answers(&family, &other, &FULL), (Some(0b10), Some(0b10)));
    Ok(())
}
