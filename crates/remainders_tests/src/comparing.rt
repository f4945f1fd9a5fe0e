//! Two values of `UsedUp` are equal if the same links were noted in the same order.
use remainders::used_up::UsedUp;

#[test]
fn the_same_links_in_the_same_order_are_equal(rt: HostRuntime) {
    let mut one = UsedUp::none();
    let mut other = UsedUp::none();
    assert_eq!(rt; one, other);
    one.note(7);
    assert_ne!(rt; one, other);
    other.note(7);
    assert_eq!(rt; one, other);
    one.note(3);
    other.note(3);
    assert_eq!(rt; one, other);
}

#[test]
fn another_order_is_not_equal(rt: HostRuntime) {
    let mut one = UsedUp::none();
    let mut other = UsedUp::none();
    one.note(7);
    one.note(3);
    other.note(3);
    other.note(7);
    assert_ne!(rt; one, other);
}

#[test]
fn other_links_are_not_equal(rt: HostRuntime) {
    let mut one = UsedUp::none();
    let mut other = UsedUp::none();
    one.note(0);
    other.note(199);
    assert_ne!(rt; one, other);
}

// The arrays of orders agree here, as behind the numbers stand zeros; the counts and the marks do not.
#[test]
fn link_0_noted_is_not_equal_to_none(rt: HostRuntime) {
    let mut one = UsedUp::none();
    one.note(0);
    assert_ne!(rt; one, UsedUp::none());
}
