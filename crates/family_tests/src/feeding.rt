//! What a feed answers.
use crate::tools::*;
use family::feed::Feed;
use family::interface::Family;
use std::test::Fail;

#[test]
fn without_marks_every_set_is_left(rt: HostRuntime) -> Result<(), Fail> {
    assert_eq!(rt;
        answers(&Feed::new(5)?, &net()?, &BARE),
        (Some(0b10), Some(0b11110))
    );
    Ok(())
}

#[test]
fn with_all_links_marked_the_unreached_are_left(rt: HostRuntime) -> Result<(), Fail> {
    assert_eq!(rt;
        answers(&Feed::new(5)?, &net()?, &FULL),
        (Some(0b1000), Some(0b11000))
    );
    Ok(())
}

#[test]
fn a_cycle_counts_both_its_stations(rt: HostRuntime) -> Result<(), Fail> {
    let (feed, net) = (Feed::new(5)?, net()?);
    assert_eq!(rt;
        answers(&feed, &net, &marks_at(&[2, 3])),
        (Some(0b1000), Some(0b11110))
    );
    assert_eq!(rt;
        answers(&feed, &net, &marks_at(&[2, 3, 5])),
        (Some(0b1000), Some(0b11110))
    );
    assert_eq!(rt;
        answers(&feed, &net, &marks_at(&[0, 5])),
        (Some(0b100), Some(0b11100))
    );
    Ok(())
}

#[test]
fn where_every_station_is_fed_there_is_none(rt: HostRuntime) -> Result<(), Fail> {
    let line = sheet_of(3, &[(0, 1), (1, 2)])?;
    let feed = Feed::new(3)?;
    assert_eq!(rt; answers(&feed, &line, &FULL), (None, None));
    assert_eq!(rt;
        answers(&feed, &line, &marks_at(&[0])),
        (Some(0b100), Some(0b100))
    );
    assert_eq!(rt;
        answers(&feed, &line, &marks_at(&[1])),
        (Some(0b10), Some(0b110))
    );
    Ok(())
}

#[test]
fn either_of_two_parallel_links_feeds(rt: HostRuntime) -> Result<(), Fail> {
    let pair = sheet_of(2, &[(0, 1), (0, 1), (1, 0)])?;
    let feed = Feed::new(2)?;
    assert_eq!(rt; answers(&feed, &pair, &marks_at(&[0])), (None, None));
    assert_eq!(rt; answers(&feed, &pair, &marks_at(&[1])), (None, None));
    assert_eq!(rt;
        answers(&feed, &pair, &marks_at(&[2])),
        (Some(0b10), Some(0b10))
    );
    Ok(())
}

#[test]
fn among_equal_counts_the_lowest_station_wins(rt: HostRuntime) -> Result<(), Fail> {
    let pairs = sheet_of(5, &[(1, 4), (4, 1), (2, 3), (3, 2)])?;
    let feed = Feed::new(5)?;
    assert_eq!(rt;
        answers(&feed, &pairs, &FULL),
        (Some(0b10010), Some(0b11110))
    );
    assert_eq!(rt;
        answers(&feed, &pairs, &marks_at(&[0, 1])),
        (Some(0b100), Some(0b11110))
    );
    Ok(())
}

#[test]
fn a_later_station_wins_by_fewer(rt: HostRuntime) -> Result<(), Fail> {
    let turned = sheet_of(4, &[(2, 1), (3, 2)])?;
    assert_eq!(rt;
        answers(&Feed::new(4)?, &turned, &FULL),
        (Some(0b1000), Some(0b1110))
    );
    Ok(())
}

#[test]
fn a_mark_without_a_link_marks_nothing(rt: HostRuntime) -> Result<(), Fail> {
    assert_eq!(rt;
        answers(&Feed::new(5)?, &net()?, &marks_at(&[6, 7, 199])),
        (Some(0b10), Some(0b11110))
    );
    Ok(())
}

#[test]
fn every_byte_but_0_marks(rt: HostRuntime) -> Result<(), Fail> {
    let line = sheet_of(3, &[(0, 1), (1, 2)])?;
    let mut marks = BARE;
    marks[0] = 255;
    assert_eq!(rt;
        answers(&Feed::new(3)?, &line, &marks),
        (Some(0b100), Some(0b100))
    );
    marks[1] = 2;
    assert_eq!(rt; answers(&Feed::new(3)?, &line, &marks), (None, None));
    Ok(())
}

#[test]
fn forty_stations_are_fed_along_a_chain(rt: HostRuntime) -> Result<(), Fail> {
    let (feed, chain) = (Feed::new(40)?, chain()?);
    assert_eq!(rt; answers(&feed, &chain, &FULL), (None, None));
    assert_eq!(rt;
        answers(&feed, &chain, &BARE),
        (Some(0b10), Some(0xff_ffff_fffe))
    );
    let mut marks = FULL;
    marks[38] = 0;
    assert_eq!(rt;
        answers(&feed, &chain, &marks),
        (Some(0x80_0000_0000), Some(0x80_0000_0000))
    );
    marks[19] = 0;
    assert_eq!(rt;
        answers(&feed, &chain, &marks),
        (Some(0x10_0000), Some(0xff_fff0_0000))
    );
    Ok(())
}

#[test]
fn a_sheet_of_another_size_has_no_answers(rt: HostRuntime) -> Result<(), Fail> {
    let net = net()?;
    assert_eq!(rt; answers(&Feed::new(4)?, &net, &BARE), (None, None));
    assert_eq!(rt; answers(&Feed::new(6)?, &net, &BARE), (None, None));
    assert_eq!(rt; answers(&Feed::new(40)?, &net, &BARE), (None, None));
    Ok(())
}

#[test]
fn asking_again_gives_the_same(rt: HostRuntime) -> Result<(), Fail> {
    let (feed, net) = (Feed::new(5)?, net()?);
    let marks = marks_at(&[0, 2]);
    let first = answers(&feed, &net, &marks);
    assert_eq!(rt; answers(&feed, &net, &marks), first);
    assert_eq!(rt; first, (Some(0b1000), Some(0b11000)));
    Ok(())
}
