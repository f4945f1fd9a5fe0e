//! A caller's buffer of bytes, written from a place on.
ghost use Rattle.std.specs.Prelude.{◌≡◌, [], ◌∷◌, length};
ghost use Rattle.annex.specs.Lines.{spaced};
ghost use Rattle.annex.specs.Places.{HasRoom, Appends};
ghost use Rattle.stations.specs.Sets.{rising};

use itoa::{Buffer, Integer};
use stations::rising::rising;

/// A caller's buffer, and how far it is written. Each call that pushes needs room for what it
/// writes; it writes that at the place, moves the place behind it, and changes no other byte.
#[derive(Drop)]
pub struct Text<'a> {
    /// The caller's buffer.
    pub bytes: &'a mut [u8],
    /// The place of the next byte.
    pub at: usize,
}

impl<'a> Text<'a> {
    /// The buffer `bytes`, with nothing written yet.
    pub fn new(bytes: &'a mut [u8]) -> Text<'a>
        ensures unchanged { result.bytes.now ≡ bytes.old }
        ensures same_buffer { result.bytes.ghost_name ≡ bytes.entry.ghost_name }
        ensures size { length result.bytes.now ≡ length bytes.old }
        ensures start { result.at ≡ 0 }
    {
        Text { bytes, at: 0 }
    }
}

impl Text<'_> {
    /// Appends the byte `b`.
    pub fn push_byte(&mut self, b: u8)
        requires { HasRoom self.old (b ∷ []) }
        ensures { Appends self.old (b ∷ []) self.new }
    {
        self.bytes[self.at] = b;
        self.at += 1;
    }

    /// Appends `bytes`.
    pub fn push_bytes(&mut self, bytes: &[u8])
        requires { HasRoom self.old bytes.now }
        ensures { Appends self.old bytes.now self.new }
    {
        let behind = self.at + bytes.len();
        self.bytes[self.at..behind].copy_from_slice(bytes);
        self.at = behind;
    }

    /// Appends `n` in base ten, with a minus sign where it is below zero.
    pub fn push_number<N: Integer>(&mut self, n: N)
        requires { HasRoom self.old (N.text n) }
        ensures { Appends self.old (N.text n) self.new }
    {
        self.push_bytes(Buffer::new().format(n).as_bytes());
    }

    /// Appends a space and `n`.
    pub fn push_spaced<N: Integer>(&mut self, n: N)
        requires { HasRoom self.old (32 ∷ N.text n) }
        ensures { Appends self.old (32 ∷ N.text n) self.new }
    {
        self.push_byte(b' ');
        self.push_number(n);
    }

    /// Appends the stations of `set`, rising, a space before each.
    pub fn push_stations(&mut self, set: u64)
        requires { HasRoom self.old (spaced (rising set)) }
        ensures { Appends self.old (spaced (rising set)) self.new }
    {
        for station in rising(set) {
            self.push_spaced(station);
        }
    }
}
