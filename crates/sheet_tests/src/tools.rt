//! What the tests share: refusals as numbers, small sheets, and comparisons through the public calls.
use amount::cents::Cents;
use digraph::link::Link;
use refusal::Refusal;
use sheet::Sheet;
use std::process::Abort;
use std::test::Fail;

/// A column of nothing.
pub const NOTHING: [Cents; 200] = [Cents { cents: 0 }; 200];

pub fn cents(cents: i64) -> Cents {
    Cents { cents }
}

pub fn link(tail: u8, head: u8) -> Link {
    Link { tail, head }
}

/// Checks that a call was refused with this number.
// A number and no case: the documents promise the numbers.
pub fn refused(rt: &impl Abort, answer: Result<(), Refusal>, number: u8) {
    assert_eq!(rt; answer.map_err(|refusal| refusal.number()), Err(number));
}

/// A link's tail and head.
pub fn ends(link: Option<Link>) -> Option<(u8, u8)> {
    link.map(|link| (link.tail, link.head))
}

/// Three stations with the links 0 from the base to 1, 1 from 1 to 2 and 2 from the base to 2, at 10
/// cents each, and no tree.
pub fn triangle(prices: &mut [Cents]) -> Result<Sheet, Fail> {
    let mut sheet = Sheet::new();
    sheet.open(3)?;
    sheet.add(prices, 0, link(0, 1), cents(10))?;
    sheet.add(prices, 1, link(1, 2), cents(10))?;
    sheet.add(prices, 2, link(0, 2), cents(10))?;
    Ok(sheet)
}

/// Forty stations with a link `s` from station `s` to the next, at 1 cent, for each `s` below `links`.
pub fn chain(prices: &mut [Cents], links: u8) -> Result<Sheet, Fail> {
    let mut sheet = Sheet::new();
    sheet.open(40)?;
    for s in 0..links {
        sheet.add(prices, u16::from(s), link(s, s + 1), cents(1))?;
    }
    Ok(sheet)
}

/// How many numbers name a link.
pub fn links_on(sheet: &Sheet) -> usize {
    (0..200)
        .filter(|number| sheet.link(*number).is_some())
        .count()
}

/// Whether two sheets answer every question alike.
// By the questions and not by `==`: the questions are what is tested.
pub fn are_alike(a: &Sheet, b: &Sheet) -> bool {
    a.stations() == b.stations()
        && a.has_tree() == b.has_tree()
        && (0..200).all(|k| ends(a.link(k)) == ends(b.link(k)) && a.in_tree(k) == b.in_tree(k))
}
