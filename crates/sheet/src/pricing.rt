//! Pricing a link anew.
ghost use Rattle.std.specs.Prelude.{◌≡◌, map, is_ok, if◌then◌else◌, slice_set};
ghost use Rattle.std.specs.Result.{result_err};
ghost use Rattle.refusal.specs.Checks.{first};
ghost use Rattle.sheet.specs.Held.{held};
ghost use Rattle.sheet.specs.Calls.{reprice_checks};

use crate::Sheet;
use amount::kind::Amount;
use refusal::Refusal;

impl Sheet {
    /// Puts another price into the column for a link of the sheet.
    pub fn reprice<T: Amount>(&self, prices: &mut [T], number: u16, price: T) -> Result<(), Refusal>
        ensures refusal { result_err result ≡ first (reprice_checks (held self.now) (map T.parts prices.old) number (T.parts price)) }
        ensures column { prices.new ≡ (if is_ok result then slice_set prices.old number price else prices.old) }
    {
        self.check_column(prices)?;
        if self.link(number).is_none() {
            return Err(Refusal::NoSuchLink);
        }
        if !price.is_legal() {
            return Err(Refusal::PriceOffered);
        }
        prices[usize::from(number)] = price;
        Ok(())
    }
}
