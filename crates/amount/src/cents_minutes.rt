//! Cents and airtime minutes: amounts of two parts, the cents deciding first.
ghost use Rattle.std.specs.Prelude.{[], ◌∷◌, ◌++◌, ℤ, Some};
ghost use Rattle.std.specs.Fmt.{signed_decimal};
ghost use Rattle.std.proofs.Common.{rules};

use crate::kind::Amount;
use crate::limit::is_within;
use crate::word::signed;
use std::fmt;

/// An amount of cents and airtime minutes. Minutes may fall below zero while cents stand above zero.
#[derive(Clone, Copy, Debug, Default, PartialEq, Eq, PartialOrd, Ord)]
pub struct CentsMinutes {
    pub cents: i64,
    pub minutes: i64,
}

impl Amount for CentsMinutes {
    ghost width = { 2 };

    ghost parts = { λ x. x.cents ∷ x.minutes ∷ [] };

    const RECORD: usize = 11;

    ghost RECORD = { 11 };

    const KIND: u8 = 2;

    ghost KIND = { 2 };

    ghost some_part = { Prim.search rules };

    ghost as_wide = { Prim.search rules };

    ghost as_long = { Prim.search rules };

    fn nothing() -> CentsMinutes {
        CentsMinutes::default()
    }

    fn plus(self, other: CentsMinutes) -> CentsMinutes {
        CentsMinutes {
            cents: self.cents.wrapping_add(other.cents),
            minutes: self.minutes.wrapping_add(other.minutes),
        }
    }

    fn minus(self, other: CentsMinutes) -> CentsMinutes {
        CentsMinutes {
            cents: self.cents.wrapping_sub(other.cents),
            minutes: self.minutes.wrapping_sub(other.minutes),
        }
    }

    fn is_below(self, other: CentsMinutes) -> bool {
        self < other
    }

    fn is_legal(self) -> bool {
        // By the parts: this is asked of every price at each call, and the derived order takes longer.
        let below_nothing = self.cents < 0 || self.cents == 0 && self.minutes < 0;
        !below_nothing && is_within(self.cents) && is_within(self.minutes)
    }

    fn read(bytes: &[u8]) -> CentsMinutes {
        CentsMinutes {
            cents: signed(bytes, 3),
            minutes: signed(bytes, 7),
        }
    }
}

impl fmt::Display for CentsMinutes {
    ghost output = { λ x. Some (signed_decimal x.cents ++ 58 ∷ signed_decimal x.minutes) };

    fn fmt<W: fmt::Write>(&self, f: &mut fmt::Formatter<W>) -> fmt::Result {
        write!(f, "{}:{}", self.cents, self.minutes)
    }
}
