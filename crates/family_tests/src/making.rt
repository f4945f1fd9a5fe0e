//! Making families, and refusals to.
use crate::tools::*;
use family::feed::Feed;
use family::interface::Family;
use family::route::Route;
use std::test::Fail;

/// The number that making a feed is refused with, 0 if it is made.
// Numbers and no cases: the documents promise the numbers.
fn feed_refusal(stations: u8) -> u8 {
    Feed::new(stations).map_or_else(|refusal| refusal.number(), |_| 0)
}

/// The number that making a route is refused with, 0 if it is made.
fn route_refusal(stations: u8, start: u8, end: u8) -> u8 {
    Route::new(stations, start, end).map_or_else(|refusal| refusal.number(), |_| 0)
}

#[test]
fn a_feed_is_for_2_to_40_stations(rt: HostRuntime) -> Result<(), Fail> {
    assert_eq!(rt; feed_refusal(0), 10);
    assert_eq!(rt; feed_refusal(1), 10);
    assert_eq!(rt; feed_refusal(41), 10);
    assert_eq!(rt; feed_refusal(255), 10);
    assert_eq!(rt; Feed::new(2)?.stations(), 2);
    assert_eq!(rt; Feed::new(40)?.stations(), 40);
    Ok(())
}

#[test]
fn a_route_is_for_2_to_40_stations(rt: HostRuntime) -> Result<(), Fail> {
    assert_eq!(rt; route_refusal(0, 0, 1), 10);
    assert_eq!(rt; route_refusal(1, 0, 0), 10);
    assert_eq!(rt; route_refusal(41, 0, 1), 10);
    assert_eq!(rt; Route::new(2, 1, 0)?.stations(), 2);
    assert_eq!(rt; Route::new(40, 39, 0)?.stations(), 40);
    Ok(())
}

#[test]
fn a_route_has_two_stations_as_ends(rt: HostRuntime) {
    assert_eq!(rt; route_refusal(5, 5, 0), 13);
    assert_eq!(rt; route_refusal(5, 255, 0), 13);
    assert_eq!(rt; route_refusal(5, 0, 5), 13);
    assert_eq!(rt; route_refusal(5, 0, 255), 13);
    assert_eq!(rt; route_refusal(5, 0, 0), 23);
    assert_eq!(rt; route_refusal(5, 4, 4), 23);
    assert_eq!(rt; route_refusal(5, 4, 0), 0);
    assert_eq!(rt; route_refusal(5, 0, 4), 0);
}

#[test]
fn the_first_check_that_fails_refuses(rt: HostRuntime) {
    assert_eq!(rt; route_refusal(1, 9, 9), 10);
    assert_eq!(rt; route_refusal(41, 50, 50), 10);
    assert_eq!(rt; route_refusal(5, 5, 5), 13);
}
