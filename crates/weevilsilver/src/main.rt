//! Reads a sheet file from standard input, loads it and prints the sheet: a line for each link, by
//! rising number, and one for the installed tree; or the line of the refusal.
#![tactic(auto)]

use crate::shown::print_sheet;
use amount::cents::Cents;
use amount::cents_minutes::CentsMinutes;
use amount::kind::Amount;
use annex::refusal_line::write_refusal;
use digraph::table::LINKS;
use refusal::Refusal;
use sheet::Sheet;
use sheet_file::load::load;
use std::fmt::Display;
use std::io::{Read, Write};

mod shown;

/// One byte more than a file may have, so that a longer one is seen to be too long.
const MOST_BYTES: u64 = 4097;

/// The room that a refusal's line is written into.
const TEXT_BYTES: usize = 32_768;

/// Prints the line of a refusal.
fn print_refusal(rt: &HostRuntime, why: &Refusal) -> anyhow::Result<()> {
    let mut text = vec![in rt.alloc(); 0u8; TEXT_BYTES]?;
    if let Ok(length) = write_refusal(why, &mut text) {
        if length <= text.len() {
            rt.stdout().write_all(&text[0..length])?;
        }
    }
    Ok(())
}

/// Loads the file in the column's kind of amount, and prints the sheet or the refusal.
fn run<T: Amount + Display>(rt: &HostRuntime, file: &[u8], prices: &mut [T]) -> anyhow::Result<()> {
    let mut sheet = Sheet::new();
    match load(&mut sheet, prices, file) {
        Ok(()) => print_sheet(rt, &sheet, prices),
        Err(why) => print_refusal(rt, &why),
    }
}

fn main(rt: HostRuntime) -> anyhow::Result<()> {
    let mut file = Vec::new(rt.alloc());
    rt.stdin().take(MOST_BYTES).read_to_end(&mut file)?;
    if file.first() == Some(&CentsMinutes::KIND) {
        run(&rt, &file, &mut [CentsMinutes::default(); LINKS])
    } else {
        run(&rt, &file, &mut [Cents::default(); LINKS])
    }
}
