//! What a route answers.
use crate::tools::*;
use family::interface::Family;
use family::route::Route;
use std::test::Fail;

#[test]
fn without_marks_the_end_alone_is_smallest(rt: HostRuntime) -> Result<(), Fail> {
    assert_eq!(rt;
        answers(&Route::new(5, 0, 2)?, &net()?, &BARE),
        (Some(0b100), Some(0b11110))
    );
    assert_eq!(rt;
        answers(&Route::new(5, 3, 1)?, &net()?, &BARE),
        (Some(0b10), Some(0b10111))
    );
    Ok(())
}

#[test]
fn a_route_that_is_led_has_none(rt: HostRuntime) -> Result<(), Fail> {
    let net = net()?;
    assert_eq!(rt; answers(&Route::new(5, 0, 2)?, &net, &FULL), (None, None));
    assert_eq!(rt;
        answers(&Route::new(5, 0, 2)?, &net, &marks_at(&[1, 2])),
        (None, None)
    );
    assert_eq!(rt;
        answers(&Route::new(5, 3, 4)?, &net, &marks_at(&[5])),
        (None, None)
    );
    Ok(())
}

#[test]
fn smallest_is_what_leads_to_the_end(rt: HostRuntime) -> Result<(), Fail> {
    let (route, net) = (Route::new(5, 0, 2)?, net()?);
    assert_eq!(rt;
        answers(&route, &net, &marks_at(&[2, 3])),
        (Some(0b110), Some(0b11110))
    );
    assert_eq!(rt;
        answers(&route, &net, &marks_at(&[0, 3, 5])),
        (Some(0b100), Some(0b11100))
    );
    Ok(())
}

#[test]
fn an_end_that_no_link_reaches_is_left(rt: HostRuntime) -> Result<(), Fail> {
    let net = net()?;
    assert_eq!(rt;
        answers(&Route::new(5, 0, 4)?, &net, &FULL),
        (Some(0b11000), Some(0b11000))
    );
    assert_eq!(rt;
        answers(&Route::new(5, 4, 3)?, &net, &FULL),
        (Some(0b1000), Some(0b1111))
    );
    Ok(())
}

#[test]
fn a_route_may_end_at_the_base(rt: HostRuntime) -> Result<(), Fail> {
    let (route, net) = (Route::new(5, 1, 0)?, net()?);
    assert_eq!(rt; answers(&route, &net, &FULL), (None, None));
    assert_eq!(rt;
        answers(&route, &net, &marks_at(&[0])),
        (Some(0b1), Some(0b11101))
    );
    Ok(())
}

#[test]
fn links_lead_one_way(rt: HostRuntime) -> Result<(), Fail> {
    let pair = sheet_of(2, &[(0, 1)])?;
    assert_eq!(rt; answers(&Route::new(2, 0, 1)?, &pair, &FULL), (None, None));
    assert_eq!(rt;
        answers(&Route::new(2, 1, 0)?, &pair, &FULL),
        (Some(0b1), Some(0b1))
    );
    Ok(())
}

#[test]
fn a_route_goes_along_forty_stations(rt: HostRuntime) -> Result<(), Fail> {
    let chain = chain()?;
    assert_eq!(rt;
        answers(&Route::new(40, 0, 39)?, &chain, &FULL),
        (None, None)
    );
    assert_eq!(rt;
        answers(&Route::new(40, 39, 0)?, &chain, &FULL),
        (Some(0b1), Some(0x7f_ffff_ffff))
    );
    let mut marks = FULL;
    marks[19] = 0;
    assert_eq!(rt;
        answers(&Route::new(40, 0, 39)?, &chain, &marks),
        (Some(0xff_fff0_0000), Some(0xff_fff0_0000))
    );
    Ok(())
}

#[test]
fn marks_are_read_as_a_feed_reads_them(rt: HostRuntime) -> Result<(), Fail> {
    let (route, net) = (Route::new(5, 0, 1)?, net()?);
    assert_eq!(rt;
        answers(&route, &net, &marks_at(&[6, 199])),
        (Some(0b10), Some(0b11110))
    );
    let mut marks = BARE;
    marks[1] = 255;
    assert_eq!(rt; answers(&route, &net, &marks), (None, None));
    Ok(())
}

#[test]
fn a_sheet_of_another_size_has_no_answers(rt: HostRuntime) -> Result<(), Fail> {
    let net = net()?;
    assert_eq!(rt; answers(&Route::new(4, 0, 1)?, &net, &BARE), (None, None));
    assert_eq!(rt; answers(&Route::new(6, 0, 1)?, &net, &BARE), (None, None));
    Ok(())
}

#[test]
fn asking_again_gives_the_same(rt: HostRuntime) -> Result<(), Fail> {
    let (route, net) = (Route::new(5, 0, 2)?, net()?);
    let marks = marks_at(&[2, 3]);
    let first = answers(&route, &net, &marks);
    assert_eq!(rt; answers(&route, &net, &marks), first);
    Ok(())
}
