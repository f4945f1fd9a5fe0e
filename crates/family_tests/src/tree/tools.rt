//! What the tests of the tree family share: sheets with a tree, their families, and their answers.
use crate::tools::{answers, marks_at, sheet_of};
use amount::cents::Cents;
use digraph::table::LINKS;
use sheet::Sheet;
use std::test::Fail;
use tree_family::tree::TreeFamily;

/// Every number marked.
pub const FULL: [u8; LINKS] = [255; LINKS];

/// A sheet of some stations with these links, each a tail and a head, and this tree installed.
pub fn planted(stations: u8, links: &[(u8, u8)], tree: &[u16]) -> Result<Sheet, Fail> {
    let room = [Cents { cents: 1 }; LINKS];
    let prices: &[Cents] = &room;
    let mut sheet = sheet_of(stations, links)?;
    sheet.install(prices, tree)?;
    Ok(sheet)
}

/// The tree family of a sheet.
pub fn family_of(sheet: &Sheet) -> Result<TreeFamily, Fail> {
    TreeFamily::of(sheet).ok_or_else(|| Fail::new(format_args!("no tree is installed")))
}

/// What the family of a sheet answers on that sheet, with marks at these numbers.
pub fn own_answers(sheet: &Sheet, numbers: &[u8]) -> Result<(Option<u64>, Option<u64>), Fail> {
    Ok(answers(&family_of(sheet)?, sheet, &marks_at(numbers)))
}
