//! Where the sections of a file lie.
ghost use Rattle.std.specs.Prelude.{◌≡◌, ◌+◌, ◌^◌, ◌<◌, ◌≤◌, length};
ghost use Rattle.sheet_file.specs.Files.{section_at, bad_pair, bytes_of};

use amount::word::word;

/// A section of a file: where it starts, and how many bytes it has.
#[derive(Debug, Clone, Copy, PartialEq, Eq)]
pub struct Section {
    pub start: usize,
    pub size: usize,
    pub ghost start_fits: { start < 2 ^ 32 },
    pub ghost size_fits: { size < 2 ^ 32 },
}

impl Section {
    /// The section that the pair at a place of a file says.
    pub fn at(file: &[u8], place: usize) -> Section
        requires { place + 8 ≤ length file.now }
        ensures start { result.start ≡ (section_at file.now place).start }
        ensures size { result.size ≡ (section_at file.now place).size }
        ensures small { (result.start < 2 ^ 32) × (result.size < 2 ^ 32) }
    {
        Section {
            start: word(file, place) as usize,
            size: word(file, place + 4) as usize,
        }
    }

    /// The place behind the section.
    pub fn end(&self) -> usize
        ensures { result ≡ self.now.start + self.now.size }
    {
        self.start + self.size
    }

    /// Whether the section starts before the earliest byte it may, or ends behind the file.
    pub fn is_bad(&self, file: &[u8], earliest: usize) -> bool
        ensures { result ≡ bad_pair file.now earliest (record { start = self.now.start; size = self.now.size }) }
    {
        self.start < earliest || file.len() < self.end()
    }

    /// The section's bytes.
    pub fn of(self, file: &[u8]) -> &[u8]
        requires { self.start + self.size ≤ length file.now }
        ensures { result.now ≡ bytes_of file.now (record { start = self.start; size = self.size }) }
    {
        &file[self.start..self.end()]
    }
}
