//! The calls of a run, and what becomes of them.
use cover::in_stages::Cover;
use digraph::link::Link;
use quote::finding::Quote;
use refusal::Refusal;

/// A call on a sheet, with what it is handed beside the sheet, the price column and the memory.
#[derive(Clone, Copy, Debug, PartialEq, Eq)]
pub enum Call<'a, T, F> {
    /// Adds a link under its number, at its price.
    Add { number: u16, link: Link, price: T },
    /// Gives the link of a number another price.
    Reprice { number: u16, price: T },
    /// Takes the link of a number off the sheet.
    Withdraw { number: u16 },
    /// Installs the tree of the links that have these numbers.
    Install { tree: &'a [u16] },
    /// Asks for a quote for the installed tree.
    Quote,
    /// Asks for a cover of a family.
    Cover { family: F },
}

/// What an accepted call answers.
#[derive(Clone, Copy, Debug, PartialEq, Eq)]
pub enum Answer<T> {
    /// An add, a reprice, a withdraw or an install answers nothing.
    Done,
    /// What a quote found.
    Quoted(Quote<T>),
    /// What a cover found.
    Covered(Cover<T>),
}

/// What became of a call: its answer, or why it was refused and changed nothing.
pub type Outcome<T> = Result<Answer<T>, Refusal>;
