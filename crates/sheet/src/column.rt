//! The price column that a caller lends to each call.
ghost use Rattle.std.specs.Prelude.{◌≡◌, map};
ghost use Rattle.std.specs.Result.{result_err};
ghost use Rattle.refusal.specs.Checks.{first};
ghost use Rattle.sheet.specs.Held.{held};
ghost use Rattle.sheet.specs.Calls.{column_checks, priced};

use crate::Sheet;
use amount::kind::Amount;
use digraph::table::{LINKS, LinkTable};
use refusal::Refusal;

impl Sheet {
    /// The checks that every call but open begins with: the column has a place for each link number,
    /// and the price of every link is legal.
    pub fn check_column<T: Amount>(&self, prices: &[T]) -> Result<(), Refusal>
        ensures { result_err result ≡ first (column_checks (held self.now) (map T.parts prices.now)) }
    {
        if prices.len() != LINKS {
            return Err(Refusal::ColumnSize);
        }
        if !are_priced(&self.links, prices) {
            return Err(Refusal::PriceInColumn);
        }
        Ok(())
    }
}

/// Whether the price of every link is legal.
fn are_priced<T: Amount>(links: &LinkTable, prices: &[T]) -> bool
    ensures { result ≡ priced links.now.slots (map T.parts prices.now) }
{
    links
        .slots
        .iter()
        .zip(prices)
        .all(|(link, price)| link.is_none() || price.is_legal())
}
