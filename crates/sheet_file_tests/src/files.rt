//! Files to load, and what loading them is checked by.
use amount::cents::Cents;
use amount::cents_minutes::CentsMinutes;
use digraph::table::LINKS;
use refusal::Refusal;
use sheet::Sheet;
use sheet_file::load::load;

/// Three stations; links 0 from 0 to 1, 1 from 0 to 2 and 2 from 1 to 2, for 5, 4 and 6 cents; the
/// tree of links 0 and 2.
pub const SAMPLE: [u8; 43] = *b"\x01\x03\x02\x00\
    \x14\x00\x00\x00\x15\x00\x00\x00\
    \x29\x00\x00\x00\x02\x00\x00\x00\
    \x00\x00\x01\x05\x00\x00\x00\
    \x01\x00\x02\x04\x00\x00\x00\
    \x02\x01\x02\x06\x00\x00\x00\
    \x00\x02";

/// Where the sample's first record starts.
pub const FIRST: usize = 20;

/// Where its last record starts.
pub const LAST: usize = 34;

/// Where its tree starts.
pub const TREE: usize = 41;

/// The sample with other bytes at some places.
pub fn changed(changes: &[(usize, u8)]) -> [u8; 43] {
    let mut file = SAMPLE;
    for (at, byte) in changes {
        if let Some(place) = file.get_mut(*at) {
            *place = *byte;
        }
    }
    file
}

/// A refusal's number and what it carries, the place of a record and the number of a call; 0 for each
/// that there is not.
// Numbers and no cases: the documents promise the numbers.
pub fn told(answer: Result<(), Refusal>) -> (u8, u16, u8) {
    match answer {
        Ok(()) => (0, 0, 0),
        Err(Refusal::FileRecord(place, why)) => (34, place, Refusal::from(why).number()),
        Err(Refusal::FileTree(why)) => (35, 0, Refusal::from(why).number()),
        Err(why) => (why.number(), 0, 0),
    }
}

/// What loading a file of cents into a new sheet tells.
pub fn loading_cents(file: &[u8]) -> (u8, u16, u8) {
    told(load(&mut Sheet::new(), &mut [Cents::default(); LINKS], file))
}

/// What loading a file of cents and minutes into a new sheet tells.
pub fn loading_minutes(file: &[u8]) -> (u8, u16, u8) {
    told(load(
        &mut Sheet::new(),
        &mut [CentsMinutes::default(); LINKS],
        file,
    ))
}

/// What loading the sample with other bytes at some places tells.
pub fn loading_changed(changes: &[(usize, u8)]) -> (u8, u16, u8) {
    loading_cents(&changed(changes))
}

/// Whether the sheet has this link.
pub fn has_link(sheet: &Sheet, number: u16, tail: u8, head: u8) -> bool {
    sheet
        .link(number)
        .is_some_and(|link| link.tail == tail && link.head == head)
}

/// Whether the sheet has the sample's stations, links and tree, and no more.
pub fn is_sample(sheet: &Sheet) -> bool {
    sheet.stations() == 3
        && has_link(sheet, 0, 0, 1)
        && has_link(sheet, 1, 0, 2)
        && has_link(sheet, 2, 1, 2)
        && sheet.in_tree(0)
        && !sheet.in_tree(1)
        && sheet.in_tree(2)
        && (3..200).all(|number| sheet.link(number).is_none() && !sheet.in_tree(number))
}
