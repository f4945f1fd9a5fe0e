//! The numbers of a file: lowest byte first.
ghost use Rattle.std.specs.Prelude.{◌≡◌, ◌+◌, ◌≤◌, length, take, drop};
ghost use Rattle.amount.specs.Records.{word as word_of, signed as signed_of};

/// The four bytes from `at` on.
fn four(bytes: &[u8], at: usize) -> [u8; 4]
    requires { at + 4 ≤ length bytes.now }
    ensures { result ≡ take 4 (drop at bytes.now) }
{
    <[u8; 4]>::try_from(&bytes[at..at + 4]).unwrap()
}

/// The four bytes from `at` on, as a number.
pub fn word(bytes: &[u8], at: usize) -> u32
    requires { at + 4 ≤ length bytes.now }
    ensures { result ≡ word_of (drop at bytes.now) }
{
    u32::from_le_bytes(four(bytes, at))
}

/// The four bytes from `at` on, as a signed number.
pub fn signed(bytes: &[u8], at: usize) -> i64
    requires { at + 4 ≤ length bytes.now }
    ensures { result ≡ signed_of (word_of (drop at bytes.now)) }
{
    i64::from(i32::from_le_bytes(four(bytes, at)))
}
