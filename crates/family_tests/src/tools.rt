//! What the tests share: small sheets, marks, families, and both answers of a family at once.
use amount::cents::Cents;
use digraph::link::Link;
use digraph::table::LINKS;
use family::interface::Family;
use sheet::Sheet;
use std::test::Fail;

/// No link marked, and every number marked.
pub const BARE: [u8; LINKS] = [0; LINKS];

pub const FULL: [u8; LINKS] = [1; LINKS];

/// A sheet of some stations with these links, each a tail and a head, numbered from 0.
pub fn sheet_of(stations: u8, links: &[(u8, u8)]) -> Result<Sheet, Fail> {
    let mut room = [Cents::default(); LINKS];
    let prices: &mut [Cents] = &mut room;
    let mut sheet = Sheet::new();
    sheet.open(stations)?;
    for (number, &(tail, head)) in (0..u16::MAX).zip(links) {
        sheet.add(prices, number, Link { tail, head }, Cents { cents: 1 })?;
    }
    Ok(sheet)
}

/// Five stations: two links from the base to 1, one each way between 1 and 2, one from 2 into the base,
/// and one from 3 to 4, which the base does not reach.
pub fn net() -> Result<Sheet, Fail> {
    sheet_of(5, &[(0, 1), (0, 1), (1, 2), (2, 1), (2, 0), (3, 4)])
}

/// Forty stations with a link `s` from station `s` to the next, for each `s` below 39.
pub fn chain() -> Result<Sheet, Fail> {
    let mut room = [Cents::default(); LINKS];
    let prices: &mut [Cents] = &mut room;
    let mut sheet = Sheet::new();
    sheet.open(40)?;
    for s in 0..39 {
        sheet.add(
            prices,
            u16::from(s),
            Link {
                tail: s,
                head: s + 1,
            },
            Cents { cents: 1 },
        )?;
    }
    Ok(sheet)
}

/// Marks at these numbers.
pub fn marks_at(numbers: &[u8]) -> [u8; LINKS] {
    let mut marks = BARE;
    for number in numbers {
        if let Some(mark) = marks.get_mut(usize::from(*number)) {
            *mark = 1;
        }
    }
    marks
}

/// What a family answers to the smallest and to the largest question.
pub fn answers<F: Family>(
    family: &F,
    sheet: &Sheet,
    marks: &[u8; LINKS],
) -> (Option<u64>, Option<u64>) {
    (family.smallest(sheet, marks), family.largest(sheet, marks))
}
