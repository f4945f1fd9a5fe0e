//! Two branches of equal depth: 1 with 3 below it, and 2 with 4 below it.
use crate::tree::tools::*;
use sheet::Sheet;
use std::test::Fail;

fn branches() -> Result<Sheet, Fail> {
    planted(5, &[(0, 1), (0, 2), (1, 3), (2, 4), (3, 2)], &[0, 1, 2, 3])
}

#[test]
fn among_equals_the_lowest_station(rt: HostRuntime) -> Result<(), Fail> {
    assert_eq!(rt;
        own_answers(&branches()?, &[])?,
        (Some(0b1000), Some(0b1010))
    );
    Ok(())
}

#[test]
fn the_next_of_the_same_depth(rt: HostRuntime) -> Result<(), Fail> {
    assert_eq!(rt;
        own_answers(&branches()?, &[2])?,
        (Some(0b10000), Some(0b1010))
    );
    Ok(())
}

#[test]
fn the_branch_that_is_not_entered(rt: HostRuntime) -> Result<(), Fail> {
    assert_eq!(rt;
        own_answers(&branches()?, &[0])?,
        (Some(0b1000), Some(0b10100))
    );
    Ok(())
}

#[test]
fn a_link_from_branch_to_branch(rt: HostRuntime) -> Result<(), Fail> {
    assert_eq!(rt;
        own_answers(&branches()?, &[2, 3, 4])?,
        (Some(0b10), Some(0b1010))
    );
    Ok(())
}
