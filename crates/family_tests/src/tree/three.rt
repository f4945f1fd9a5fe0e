//! Three stations: links from the base to 1 and to 2, and one each way between 1 and 2.
use crate::tree::tools::*;
use sheet::Sheet;
use std::test::Fail;

const LINKS_OF_THREE: [(u8, u8); 4] = [(0, 1), (0, 2), (1, 2), (2, 1)];

/// With the tree 0, 1, 2, one below the other.
fn line() -> Result<Sheet, Fail> {
    planted(3, &LINKS_OF_THREE, &[0, 2])
}

/// With the tree that has 1 and 2 right below the base.
fn fork() -> Result<Sheet, Fail> {
    planted(3, &LINKS_OF_THREE, &[0, 1])
}

#[test]
fn without_marks_the_deepest_station_and_the_whole_tree(rt: HostRuntime) -> Result<(), Fail> {
    assert_eq!(rt; own_answers(&line()?, &[])?, (Some(0b100), Some(0b110)));
    Ok(())
}

#[test]
fn a_marked_link_past_the_tree_enters_the_deepest(rt: HostRuntime) -> Result<(), Fail> {
    assert_eq!(rt; own_answers(&line()?, &[1])?, (Some(0b10), Some(0b10)));
    Ok(())
}

#[test]
fn a_marked_tree_link_counts_for_its_own_station(rt: HostRuntime) -> Result<(), Fail> {
    assert_eq!(rt; own_answers(&line()?, &[2])?, (Some(0b10), Some(0b110)));
    assert_eq!(rt; own_answers(&line()?, &[0])?, (Some(0b100), Some(0b100)));
    Ok(())
}

#[test]
fn a_marked_link_up_the_tree_enters_nothing_more(rt: HostRuntime) -> Result<(), Fail> {
    assert_eq!(rt; own_answers(&line()?, &[3])?, (Some(0b100), Some(0b110)));
    Ok(())
}

#[test]
fn the_tree_enters_every_member(rt: HostRuntime) -> Result<(), Fail> {
    assert_eq!(rt; own_answers(&line()?, &[0, 2])?, (None, None));
    assert_eq!(rt; own_answers(&fork()?, &[0, 1])?, (None, None));
    Ok(())
}

#[test]
fn among_equals_the_lowest_station(rt: HostRuntime) -> Result<(), Fail> {
    assert_eq!(rt; own_answers(&fork()?, &[])?, (Some(0b10), Some(0b10)));
    Ok(())
}

#[test]
fn the_other_tree_links_count_as_marked(rt: HostRuntime) -> Result<(), Fail> {
    assert_eq!(rt; own_answers(&fork()?, &[3])?, (Some(0b100), Some(0b100)));
    assert_eq!(rt; own_answers(&fork()?, &[2])?, (Some(0b10), Some(0b10)));
    assert_eq!(rt; own_answers(&fork()?, &[2, 3])?, (None, None));
    Ok(())
}

#[test]
fn a_number_without_a_link_marks_nothing(rt: HostRuntime) -> Result<(), Fail> {
    assert_eq!(rt;
        own_answers(&line()?, &[4, 199])?,
        (Some(0b100), Some(0b110))
    );
    Ok(())
}
