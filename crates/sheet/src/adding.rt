//! Adding a link.
ghost use Rattle.std.specs.Prelude.{◌≡◌, false, map, is_ok, if◌then◌else◌, Some, slice_set};
ghost use Rattle.std.specs.Result.{result_err};
ghost use Rattle.refusal.specs.Checks.{first};
ghost use Rattle.sheet.specs.Held.{held, with_link};
ghost use Rattle.sheet.specs.Calls.{add_checks, link_checks};

use crate::Sheet;
use amount::kind::Amount;
use digraph::link::Link;
use digraph::table::LINKS;
use refusal::{LinkRefusal, Refusal};

impl Sheet {
    /// Adds a link, and puts its price into the column at its number.
    pub fn add<T: Amount>(
        &mut self,
        prices: &mut [T],
        number: u16,
        link: Link,
        price: T,
    ) -> Result<(), Refusal>
        ensures refusal { result_err result ≡ first (add_checks (held self.old) (map T.parts prices.old) number link.tail link.head (T.parts price)) }
        ensures kept { is_ok result ≡ false → self.new ≡ self.old }
        ensures holds { held self.new ≡ (if is_ok result then with_link (held self.old) number (Some link) else held self.old) }
        ensures column { prices.new ≡ (if is_ok result then slice_set prices.old number price else prices.old) }
    {
        self.check_column(prices)?;
        self.place(number, link, price)?;
        prices[usize::from(number)] = price;
        Ok(())
    }

    /// Puts a link on the sheet, and its price nowhere: the column's checks and its write aside, this
    /// is what `add` does.
    pub fn place<T: Amount>(&mut self, number: u16, link: Link, price: T) -> Result<(), LinkRefusal>
        ensures refusal { result_err result ≡ first (link_checks (held self.old) number link.tail link.head (T.parts price)) }
        ensures kept { is_ok result ≡ false → self.new ≡ self.old }
        ensures holds { held self.new ≡ (if is_ok result then with_link (held self.old) number (Some link) else held self.old) }
    {
        if usize::from(number) >= LINKS {
            return Err(LinkRefusal::LinkNumber);
        }
        if self.link(number).is_some() {
            return Err(LinkRefusal::LinkInUse);
        }
        let Link { tail, head } = link;
        if tail >= self.stations() || head >= self.stations() {
            return Err(LinkRefusal::NoSuchStation);
        }
        if tail == head {
            return Err(LinkRefusal::EqualEnds);
        }
        if !price.is_legal() {
            return Err(LinkRefusal::PriceOffered);
        }
        self.links.put(usize::from(number), Some(link));
        Ok(())
    }
}
