//! A whole run.
ghost use Rattle.std.specs.Prelude.{◌≡◌, false, length, is_ok, OnOk};
ghost use Rattle.std.specs.Result.{result_err};
ghost use Rattle.quote.specs.Lent.{SameQuoteMemory};
ghost use Rattle.refusal.specs.Checks.{first};
ghost use Rattle.sheet.specs.Held.{held, opened};
ghost use Rattle.run.specs.Made.{kinds};
ghost use Rattle.run.specs.Season.{Season, run_checks};
ghost use Rattle.run.specs.States.{state, at_first};

use crate::calls::{Call, Outcome};
use crate::making::make;
use amount::kind::Amount;
use family::interface::Family;
use quote::memory::QuoteMemory;
use refusal::Refusal;
use sheet::Sheet;
use stations::count::StationCount;

/// Opens the sheet for a number of stations, makes each call of the list on what the one before left,
/// refused or not, and puts what became of it into the place of the outcome list.
pub fn run<T: Amount, F: Family>(
    sheet: &mut Sheet,
    stations: u8,
    prices: &mut [T],
    memory: &mut QuoteMemory<'_, T>,
    calls: &[Call<'_, T, F>],
    outcomes: &mut [Outcome<T>],
) -> Result<(), Refusal>
    ensures refusal { result_err result ≡ first (run_checks stations (length calls.now) (length outcomes.old)) }
    ensures sheet_kept { is_ok result ≡ false → sheet.new ≡ sheet.old }
    ensures untouched { is_ok result ≡ false → state sheet.new prices.new memory.new ≡ state sheet.old prices.old memory.old }
    ensures same_memory { SameQuoteMemory memory.old memory.new }
    ensures outcomes_kept { is_ok result ≡ false → outcomes.new ≡ outcomes.old }
    ensures season { OnOk result (Season (kinds T.width T.parts F.size F.small F.large) F.member stations calls.now outcomes.new (at_first stations prices.old memory.old) (state sheet.new prices.new memory.new)) }
{
    check_run(stations, calls.len(), outcomes.len())?;
    sheet.open(stations)?;
    make_all(sheet, prices, memory, calls, outcomes);
    Ok(())
}

/// What turns a run itself back: its number of stations, and an outcome list of another size than the
/// list of calls.
fn check_run(stations: u8, calls: usize, outcomes: usize) -> Result<(), Refusal>
    ensures { result_err result ≡ first (run_checks stations calls outcomes) }
{
    StationCount::try_from(stations)?;
    if outcomes != calls {
        return Err(Refusal::MemorySize);
    }
    Ok(())
}

/// Makes each call on a sheet just opened, and puts what became of it into its place.
pub fn make_all<T: Amount, F: Family>(
    sheet: &mut Sheet,
    prices: &mut [T],
    memory: &mut QuoteMemory<'_, T>,
    calls: &[Call<'_, T, F>],
    outcomes: &mut [Outcome<T>],
)
    requires as_many { length outcomes.old ≡ length calls.now }
    requires opened { held sheet.old ≡ opened (held sheet.old).stations }
    ensures same_memory { SameQuoteMemory memory.old memory.new }
    ensures season { Season (kinds T.width T.parts F.size F.small F.large) F.member (held sheet.old).stations calls.now outcomes.new (at_first (held sheet.old).stations prices.old memory.old) (state sheet.new prices.new memory.new) }
{
    for (i, call) in calls.iter().enumerate() {
        // By index: a proof knows nothing of the places that `iter_mut` writes.
        outcomes[i] = make(sheet, prices, memory, call);
    }
}
