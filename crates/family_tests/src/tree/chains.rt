//! Chains: every station below the one before.
use crate::tree::tools::*;
use sheet::Sheet;
use std::array;
use std::test::Fail;

/// The chain 0, 1, 2, 3 with a link from the base to 2, and the chain as its tree.
fn short() -> Result<Sheet, Fail> {
    planted(4, &[(0, 1), (1, 2), (2, 3), (0, 2)], &[0, 1, 2])
}

/// What is reached from outside goes on along the tree: what is left below 1 is 1 alone, and not 1 with 3, which two tree links enter.
#[test]
fn what_is_reached_is_reached_along_the_tree_too(rt: HostRuntime) -> Result<(), Fail> {
    assert_eq!(rt; own_answers(&short()?, &[3])?, (Some(0b1000), Some(0b10)));
    Ok(())
}

#[test]
fn without_marks_all_but_the_base(rt: HostRuntime) -> Result<(), Fail> {
    assert_eq!(rt; own_answers(&short()?, &[])?, (Some(0b1000), Some(0b1110)));
    Ok(())
}

#[test]
fn marked_tree_links_leave_the_others(rt: HostRuntime) -> Result<(), Fail> {
    assert_eq!(rt; own_answers(&short()?, &[2])?, (Some(0b100), Some(0b1110)));
    assert_eq!(rt;
        own_answers(&short()?, &[0, 2])?,
        (Some(0b100), Some(0b1100))
    );
    Ok(())
}

/// Forty stations in a chain, with the chain as the tree.
fn long() -> Result<Sheet, Fail> {
    let links: [(u8, u8); 39] = array::from_fn(|s| (s as u8, s as u8 + 1));
    let numbers: [u16; 39] = array::from_fn(|s| s as u16);
    planted(40, &links, &numbers)
}

#[test]
fn forty_stations(rt: HostRuntime) -> Result<(), Fail> {
    assert_eq!(rt;
        own_answers(&long()?, &[])?,
        (Some(1 << 39), Some((1 << 40) - 2))
    );
    assert_eq!(rt;
        own_answers(&long()?, &[38, 0])?,
        (Some(1 << 38), Some((1 << 40) - 4))
    );
    Ok(())
}
