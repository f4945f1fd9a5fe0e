//! Refusals: why a call turned back, each with the number that contracts, documents and the program's
//! output give it. Every call of this repository that can turn back answers with one of these.
#![tactic(auto)]

ghost use Rattle.std.specs.Prelude.{◌≡◌};
ghost use Rattle.refusal.specs.Numbers.{number_of};
ghost use Rattle.refusal.specs.Conversions.{refusal_of_link, refusal_of_tree};
ghost use Rattle.refusal.specs.declared.Refusal.TheVariants.{StationCount};

use stations::count::WrongCount;
use thiserror::Error;

/// Why a link cannot be added.
#[derive(Clone, Copy, Debug, PartialEq, Eq, Error)]
pub enum LinkRefusal {
    #[error("a link number above 199")]
    LinkNumber,
    #[error("a link number that a link has already")]
    LinkInUse,
    #[error("a station that the sheet does not have")]
    NoSuchStation,
    #[error("a link whose tail is its head")]
    EqualEnds,
    #[error("an illegal price, offered for a link")]
    PriceOffered,
}

/// Why a tree cannot be installed.
#[derive(Clone, Copy, Debug, PartialEq, Eq, Error)]
pub enum TreeRefusal {
    #[error("a tree list whose length is not one less than the number of stations")]
    TreeLength,
    #[error("a number that names no link")]
    NoSuchLink,
    #[error("a station that the tree list does not reach from the base")]
    StationNotReached,
}

/// Why a call turned back. A refused call has changed nothing.
#[derive(Clone, Copy, Debug, PartialEq, Eq, Error)]
pub enum Refusal {
    #[error("a price column that has not 200 places")]
    ColumnSize,
    #[error("an illegal price of a link in the price column")]
    PriceInColumn,
    #[error("fewer than 2 or more than 40 stations")]
    StationCount,
    #[error("a link number above 199")]
    LinkNumber,
    #[error("a link number that a link has already")]
    LinkInUse,
    #[error("a station that the sheet, or the number of stations given, does not have")]
    NoSuchStation,
    #[error("a link whose tail is its head")]
    EqualEnds,
    #[error("an illegal price, offered for a link")]
    PriceOffered,
    #[error("a number that names no link")]
    NoSuchLink,
    #[error("a link that the installed tree uses")]
    LinkInTree,
    #[error("a tree list whose length is not one less than the number of stations")]
    TreeLength,
    #[error("a station that the tree list does not reach from the base")]
    StationNotReached,
    #[error("a sheet without an installed tree")]
    NoTree,
    #[error("a column, list or marks of another size than stated")]
    MemorySize,
    /// That set, as a mask.
    #[error("a family with a member that no link of the sheet enters, the mask {0:#b}")]
    MemberNotEntered(u64),
    #[error("a route from a station to itself")]
    EqualRouteEnds,
    #[error("a family made for another number of stations")]
    FamilyStations,
    #[error("a text buffer under 32,768 bytes")]
    TextSize,
    #[error("a file under 20 or over 4,096 bytes")]
    FileSize,
    #[error("a file of another kind of amount, or with a pair count other than 2")]
    FileKind,
    #[error("a file's pair of offset and length that starts too early or ends behind the file")]
    FilePair,
    #[error("a file's section of a length that does not fit what it holds")]
    FileSection,
    /// The record's place, from 0, and why.
    #[error("a file's link record {0} that cannot be added: {1}")]
    FileRecord(u16, LinkRefusal),
    #[error("a file's tree that cannot be installed: {0}")]
    FileTree(TreeRefusal),
}

impl Refusal {
    /// The refusal's number.
    pub fn number(&self) -> u8
        ensures { result ≡ number_of self.now }
    {
        // A table: cases that carry something have no discriminant of their own.
        match *self {
            Refusal::ColumnSize => 1,
            Refusal::PriceInColumn => 2,
            Refusal::StationCount => 10,
            Refusal::LinkNumber => 11,
            Refusal::LinkInUse => 12,
            Refusal::NoSuchStation => 13,
            Refusal::EqualEnds => 14,
            Refusal::PriceOffered => 15,
            Refusal::NoSuchLink => 16,
            Refusal::LinkInTree => 17,
            Refusal::TreeLength => 18,
            Refusal::StationNotReached => 19,
            Refusal::NoTree => 20,
            Refusal::MemorySize => 21,
            Refusal::MemberNotEntered(_) => 22,
            Refusal::EqualRouteEnds => 23,
            Refusal::FamilyStations => 24,
            Refusal::TextSize => 25,
            Refusal::FileSize => 30,
            Refusal::FileKind => 31,
            Refusal::FilePair => 32,
            Refusal::FileSection => 33,
            Refusal::FileRecord(_, _) => 34,
            Refusal::FileTree(_) => 35,
        }
    }
}

impl LinkRefusal {
    /// The number of the refusal that it becomes.
    pub fn number(self) -> u8
        ensures { result ≡ number_of (refusal_of_link self) }
    {
        let of_link = Refusal::from(self);
        of_link.number()
    }
}

impl TreeRefusal {
    /// The number of the refusal that it becomes.
    pub fn number(self) -> u8
        ensures { result ≡ number_of (refusal_of_tree self) }
    {
        let of_tree = Refusal::from(self);
        of_tree.number()
    }
}

impl From<LinkRefusal> for Refusal {
    ghost from_gives = { λ why refusal. refusal ≡ refusal_of_link why };

    fn from(why: LinkRefusal) -> Refusal {
        match why {
            LinkRefusal::LinkNumber => Refusal::LinkNumber,
            LinkRefusal::LinkInUse => Refusal::LinkInUse,
            LinkRefusal::NoSuchStation => Refusal::NoSuchStation,
            LinkRefusal::EqualEnds => Refusal::EqualEnds,
            LinkRefusal::PriceOffered => Refusal::PriceOffered,
        }
    }
}

impl From<TreeRefusal> for Refusal {
    ghost from_gives = { λ why refusal. refusal ≡ refusal_of_tree why };

    fn from(why: TreeRefusal) -> Refusal {
        match why {
            TreeRefusal::TreeLength => Refusal::TreeLength,
            TreeRefusal::NoSuchLink => Refusal::NoSuchLink,
            TreeRefusal::StationNotReached => Refusal::StationNotReached,
        }
    }
}

impl From<WrongCount> for Refusal {
    ghost from_gives = { λ _ refusal. refusal ≡ StationCount };

    fn from(why: WrongCount) -> Refusal {
        match why {
            WrongCount => Refusal::StationCount,
        }
    }
}
