//! One call of a run.
ghost use Rattle.quote.specs.Lent.{SameQuoteMemory};
ghost use Rattle.run.specs.Made.{Made, kinds};
ghost use Rattle.run.specs.States.{state};

use crate::calls::{Answer, Call, Outcome};
use amount::kind::Amount;
use cover::call::cover;
use cover::memory::CoverMemory;
use family::interface::Family;
use quote::call::quote;
use quote::memory::QuoteMemory;
use sheet::Sheet;

/// Makes a call, and says what became of it.
pub fn make<T: Amount, F: Family>(
    sheet: &mut Sheet,
    prices: &mut [T],
    memory: &mut QuoteMemory<'_, T>,
    call: &Call<'_, T, F>,
) -> Outcome<T>
    ensures made { Made (kinds T.width T.parts F.size F.small F.large) F.member (state sheet.old prices.old memory.old) (state sheet.new prices.new memory.new) call.now result }
    ensures same_memory { SameQuoteMemory memory.old memory.new }
{
    match call {
        Call::Add {
            number,
            link,
            price,
        } => {
            sheet.add(prices, *number, *link, *price)?;
            Ok(Answer::Done)
        }
        Call::Reprice { number, price } => {
            sheet.reprice(prices, *number, *price)?;
            Ok(Answer::Done)
        }
        Call::Withdraw { number } => {
            sheet.withdraw(prices, *number)?;
            Ok(Answer::Done)
        }
        Call::Install { tree } => {
            sheet.install(prices, tree)?;
            Ok(Answer::Done)
        }
        Call::Quote => {
            let quoted = quote(sheet, prices, memory)?;
            Ok(Answer::Quoted(quoted))
        }
        Call::Cover { family } => {
            let mut lent = CoverMemory {
                left: memory.left,
                sets: memory.sets,
                amounts: memory.amounts,
                marks: memory.marks,
            };
            let covered = cover(sheet, prices, family, &mut lent)?;
            Ok(Answer::Covered(covered))
        }
    }
}
