//! Taking a link off the sheet.
ghost use Rattle.std.specs.Prelude.{◌≡◌, false, map, is_ok, if◌then◌else◌, None};
ghost use Rattle.std.specs.Result.{result_err};
ghost use Rattle.refusal.specs.Checks.{first};
ghost use Rattle.sheet.specs.Held.{held, with_link};
ghost use Rattle.sheet.specs.Calls.{withdraw_checks};

use crate::Sheet;
use amount::kind::Amount;
use refusal::Refusal;

impl Sheet {
    /// Takes a link off the sheet: its number is free again, and the column stays as it is.
    pub fn withdraw<T: Amount>(&mut self, prices: &[T], number: u16) -> Result<(), Refusal>
        ensures refusal { result_err result ≡ first (withdraw_checks (held self.old) (map T.parts prices.now) number) }
        ensures kept { is_ok result ≡ false → self.new ≡ self.old }
        ensures holds { held self.new ≡ (if is_ok result then with_link (held self.old) number None else held self.old) }
    {
        self.check_column(prices)?;
        if self.link(number).is_none() {
            return Err(Refusal::NoSuchLink);
        }
        if self.in_tree(number) {
            return Err(Refusal::LinkInTree);
        }
        let mut links = self.links;
        links.put(usize::from(number), None);
        *self = Sheet {
            stations: self.stations,
            links,
            tree: self.tree,
        };
        Ok(())
    }
}
