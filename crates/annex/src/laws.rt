//! Laws of the text, each the contract of a function that does nothing else.
ghost use Rattle.annex.specs.Laws.{ReadsBack, NoLeadingZero, LinesReadSo};

/// The text of a number gives that number again, and has no zero in front.
pub fn numbers_read_back()
    ensures reads { ReadsBack }
    ensures leads { NoLeadingZero }
{}

/// A refusal's line, of each form.
pub fn lines_read_so()
    ensures { LinesReadSo }
{}
