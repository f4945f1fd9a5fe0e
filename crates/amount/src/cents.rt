//! Cents: amounts of one part.
ghost use Rattle.std.specs.Prelude.{[], ◌∷◌, ℤ, Some};
ghost use Rattle.std.specs.Fmt.{signed_decimal};
ghost use Rattle.std.proofs.Common.{rules};

use crate::kind::Amount;
use crate::limit::is_within;
use crate::word::signed;
use std::fmt;

/// An amount of cents.
#[derive(Clone, Copy, Debug, Default, PartialEq, Eq, PartialOrd, Ord)]
pub struct Cents {
    pub cents: i64,
}

impl Amount for Cents {
    ghost width = { 1 };

    ghost parts = { λ x. x.cents ∷ [] };

    const RECORD: usize = 7;

    ghost RECORD = { 7 };

    const KIND: u8 = 1;

    ghost KIND = { 1 };

    ghost some_part = { Prim.search rules };

    ghost as_wide = { Prim.search rules };

    ghost as_long = { Prim.search rules };

    fn nothing() -> Cents {
        Cents::default()
    }

    fn plus(self, other: Cents) -> Cents {
        Cents {
            cents: self.cents.wrapping_add(other.cents),
        }
    }

    fn minus(self, other: Cents) -> Cents {
        Cents {
            cents: self.cents.wrapping_sub(other.cents),
        }
    }

    fn is_below(self, other: Cents) -> bool {
        self < other
    }

    fn is_legal(self) -> bool {
        self >= Self::nothing() && is_within(self.cents)
    }

    fn read(bytes: &[u8]) -> Cents {
        Cents {
            cents: signed(bytes, 3),
        }
    }
}

impl fmt::Display for Cents {
    ghost output = { λ x. Some (signed_decimal x.cents) };

    fn fmt<W: fmt::Write>(&self, f: &mut fmt::Formatter<W>) -> fmt::Result {
        write!(f, "{}", self.cents)
    }
}
