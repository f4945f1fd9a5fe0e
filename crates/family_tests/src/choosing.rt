//! Either of two families answers as the one that it is.
use crate::tools::*;
use family::either::Either;
use family::feed::Feed;
use family::interface::Family;
use family::route::Route;
use std::test::Fail;

#[test]
fn a_feed_answers_as_a_feed(rt: HostRuntime) -> Result<(), Fail> {
    let either: Either<Feed, Route> = Either::First(Feed::new(5)?);
    assert_eq!(rt; either.stations(), 5);
    assert_eq!(rt;
        answers(&either, &net()?, &FULL),
        (Some(0b1000), Some(0b11000))
    );
    Ok(())
}

#[test]
fn a_route_answers_as_a_route(rt: HostRuntime) -> Result<(), Fail> {
    let either: Either<Feed, Route> = Either::Second(Route::new(5, 0, 2)?);
    assert_eq!(rt; either.stations(), 5);
    assert_eq!(rt; answers(&either, &net()?, &FULL), (None, None));
    assert_eq!(rt;
        answers(&either, &net()?, &marks_at(&[2, 3])),
        (Some(0b110), Some(0b11110))
    );
    Ok(())
}

#[test]
fn one_list_has_families_of_both_kinds(rt: HostRuntime) -> Result<(), Fail> {
    let families: [Either<Feed, Route>; 2] = [
        Either::First(Feed::new(5)?),
        Either::Second(Route::new(5, 4, 3)?),
    ];
    let net = net()?;
    assert_eq!(rt;
        answers(&families[0], &net, &FULL),
        (Some(0b1000), Some(0b11000))
    );
    assert_eq!(rt;
        answers(&families[1], &net, &FULL),
        (Some(0b1000), Some(0b1111))
    );
    Ok(())
}

#[test]
fn an_either_may_hold_an_either(rt: HostRuntime) -> Result<(), Fail> {
    let inner: Either<Feed, Route> = Either::Second(Route::new(6, 0, 1)?);
    let either: Either<Feed, Either<Feed, Route>> = Either::Second(inner);
    assert_eq!(rt; either.stations(), 6);
    assert_eq!(rt; answers(&either, &net()?, &BARE), (None, None));
    Ok(())
}
