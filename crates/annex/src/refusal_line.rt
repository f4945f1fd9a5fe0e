//! The line that a refusal is written as.
ghost use Rattle.std.specs.Prelude.{◌≡◌, ◌+◌, ◌≤◌, [], ◌∷◌, length, if◌then◌else◌, Some, None};
ghost use Rattle.annex.specs.Lines.{spaced, line_of_refusal, too_small, laid};
ghost use Rattle.annex.specs.Places.{Appends};
ghost use Rattle.refusal.specs.Checks.{first, ◌refuses_with◌};
ghost use Rattle.refusal.specs.Numbers.{carried_by};
ghost use Rattle.std.specs.Result.{result_err, result_ok};

use crate::text::Text;
use refusal::Refusal;

/// The bytes that a text buffer has at least.
const TEXT_SIZE: usize = 32_768;

impl Text<'_> {
    /// Appends what `refusal` carries beside its number, a space before each.
    fn push_carried(&mut self, refusal: Refusal)
        requires { self.old.at + 192 ≤ length self.old.bytes.now }
        ensures written { Appends self.old (spaced (carried_by refusal)) self.new }
        ensures short { length (spaced (carried_by refusal)) ≤ 192 }
    {
        match refusal {
            Refusal::MemberNotEntered(set) => self.push_stations(set),
            Refusal::FileRecord(place, inner) => {
                let inner = Refusal::from(inner).number();
                self.push_spaced(place);
                self.push_spaced(inner);
            }
            Refusal::FileTree(inner) => self.push_spaced(Refusal::from(inner).number()),
            _ => {}
        }
    }

    /// Appends the line of `refusal`, which takes at most 221 bytes.
    fn push_line(&mut self, refusal: Refusal)
        requires { self.old.at + 221 ≤ length self.old.bytes.now }
        ensures { Appends self.old (line_of_refusal refusal) self.new }
    {
        self.push_bytes(b"refused");
        self.push_spaced(refusal.number());
        self.push_carried(refusal);
        self.push_byte(b'\n');
    }
}

/// Writes `refusal` as one line into `text`, and answers the line's length: `refused`, the number,
/// what it carries (a set as its stations rising), parted by one space, and a line feed. Refuses a
/// buffer under 32,768 bytes. Bytes behind the line stay.
// Not by `write!` over an `impl Display`: that trait's contract lets a write fail, and this promises every byte.
pub fn write_refusal(refusal: &Refusal, text: &mut [u8]) -> Result<usize, Refusal>
    ensures refuses { result_err result ≡ first ((too_small text.old refuses_with Refusal.TextSize) ∷ []) }
    ensures answers { result_ok result ≡ (if too_small text.old then None else Some (length (line_of_refusal refusal.now))) }
    ensures leaves { text.new ≡ (if too_small text.old then text.old else laid (line_of_refusal refusal.now) text.old) }
{
    if text.len() < TEXT_SIZE {
        return Err(Refusal::TextSize);
    }
    let mut line = Text::new(text);
    line.push_line(*refusal);
    Ok(line.at)
}
