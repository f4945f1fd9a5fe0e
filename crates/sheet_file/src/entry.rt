//! A file's link records, read where they lie.
ghost use Rattle.std.specs.Prelude.{◌≡◌, ◌+◌, ◌*◌, ◌/◌, ◌≤◌, length};
ghost use Rattle.amount.specs.Records.{length_of_record};
ghost use Rattle.sheet_file.specs.Files.{Entry, entry_at, entry_of};

use amount::kind::Amount;
use digraph::link::Link;

/// A link record.
#[derive(Debug, Clone, Copy, PartialEq, Eq)]
pub struct LinkRecord<T> {
    pub number: u16,
    pub link: Link,
    pub price: T,
}

/// How many records a section holds.
pub fn count_records<T: Amount>(records: &[u8]) -> usize
    ensures { result ≡ length records.now / length_of_record T.width }
{
    records.len() / T::RECORD
}

/// The record of a place.
pub fn record_at<T: Amount>(records: &[u8], place: usize) -> LinkRecord<T>
    requires { place * length_of_record T.width + length_of_record T.width ≤ length records.now }
    ensures { ◌≡◌ {A = Entry} (record { number = result.number; tail = result.link.tail; head = result.link.head; price = T.parts result.price }) (entry_at T.width records.now place) }
{
    let size = T::RECORD;
    let start = place * size;
    let end = start + size;
    read_record(&records[start..end])
}

/// The record that these bytes are.
fn read_record<T: Amount>(bytes: &[u8]) -> LinkRecord<T>
    requires { length bytes.now ≡ length_of_record T.width }
    ensures { ◌≡◌ {A = Entry} (record { number = result.number; tail = result.link.tail; head = result.link.head; price = T.parts result.price }) (entry_of T.width bytes.now) }
{
    LinkRecord {
        number: u16::from(bytes[0]),
        link: Link {
            tail: bytes[1],
            head: bytes[2],
        },
        price: T::read(bytes),
    }
}
