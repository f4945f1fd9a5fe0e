//! Stations reached along marked links.
use crate::tools::*;
use family::reach::{Direction, others, stations_reached, stations_reaching, steps};
use std::test::Fail;

#[test]
fn steps_go_forth_and_back(rt: HostRuntime) -> Result<(), Fail> {
    let net = net()?;
    let forth = steps(&net, &FULL, Direction::Forth).next;
    assert!(rt; forth[0] == 0b10 && forth[1] == 0b100 && forth[2] == 0b11);
    assert!(rt; forth[3] == 0b10000 && forth[4] == 0 && forth[39] == 0);
    let back = steps(&net, &FULL, Direction::Back).next;
    assert!(rt; back[0] == 0b100 && back[1] == 0b101 && back[2] == 0b10);
    assert!(rt; back[3] == 0 && back[4] == 0b1000 && back[39] == 0);
    Ok(())
}

#[test]
fn the_station_itself_is_reached(rt: HostRuntime) -> Result<(), Fail> {
    let net = net()?;
    assert!(rt; 4 < net.stations());
    assert_eq!(rt; stations_reached(&net, &FULL, 4), 0b10000);
    assert_eq!(rt; stations_reaching(&net, &FULL, 4), 0b11000);
    assert_eq!(rt; stations_reached(&net, &BARE, 2), 0b100);
    assert_eq!(rt; stations_reaching(&net, &BARE, 2), 0b100);
    Ok(())
}

#[test]
fn cycles_are_gone_along(rt: HostRuntime) -> Result<(), Fail> {
    let net = net()?;
    assert!(rt; 4 < net.stations());
    assert_eq!(rt; stations_reached(&net, &FULL, 1), 0b111);
    assert_eq!(rt; stations_reaching(&net, &FULL, 1), 0b111);
    assert_eq!(rt; stations_reached(&net, &marks_at(&[2, 3]), 2), 0b110);
    assert_eq!(rt; stations_reaching(&net, &marks_at(&[2]), 2), 0b110);
    assert_eq!(rt; stations_reaching(&net, &marks_at(&[2]), 1), 0b10);
    Ok(())
}

#[test]
fn others_are_what_a_set_lacks(rt: HostRuntime) {
    assert_eq!(rt; others(5, 0b00101), 0b11010);
    assert_eq!(rt; others(2, 0b11), 0);
    assert_eq!(rt; others(40, 0), 0xff_ffff_ffff);
}
