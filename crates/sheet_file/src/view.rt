//! A file's own bytes, seen as a sheet file.
ghost use Rattle.std.specs.Prelude.{◌≡◌, IfOk};
ghost use Rattle.std.specs.Result.{result_err};
ghost use Rattle.refusal.specs.Checks.{first};
ghost use Rattle.sheet_file.specs.Files.{file_checks, bytes_of, stations_of, records_section, tree_section};

use crate::section::Section;
use amount::kind::Amount;
use refusal::Refusal;
use stations::count::StationCount;

/// A view of a sheet file: the number of stations, and the two sections where they lie in the file.
#[derive(Debug, Clone, Copy, PartialEq, Eq)]
pub struct SheetFile<'a> {
    pub stations: StationCount,
    /// The link records, one behind the other.
    pub records: &'a [u8],
    /// The numbers of the tree, a byte each.
    pub tree: &'a [u8],
}

/// The view of a file of this kind of amount, or what is wrong with its head and its sections.
pub fn view<'a, T: Amount>(file: &'a [u8]) -> Result<SheetFile<'a>, Refusal>
    ensures refusal { result_err result ≡ first (file_checks T.width T.KIND file.now) }
    ensures stations { IfOk result (λ v. v.stations.count ≡ stations_of file.now) }
    ensures records { IfOk result (λ v. v.records.now ≡ bytes_of file.now (records_section file.now)) }
    ensures tree { IfOk result (λ v. v.tree.now ≡ bytes_of file.now (tree_section file.now)) }
{
    if file.len() < 20 || 4096 < file.len() {
        return Err(Refusal::FileSize);
    }
    if file[0] != T::KIND || u16::from_le_bytes([file[2], file[3]]) != 2 {
        return Err(Refusal::FileKind);
    }
    let stations = StationCount::try_from(file[1])?;
    let records = Section::at(file, 4);
    let tree = Section::at(file, 12);
    if records.is_bad(file, 20) || tree.is_bad(file, records.end()) {
        return Err(Refusal::FilePair);
    }
    if records.size % T::RECORD != 0
        || tree.size != 0 && tree.size != usize::from(stations.get()) - 1
    {
        return Err(Refusal::FileSection);
    }
    Ok(SheetFile {
        stations,
        records: records.of(file),
        tree: tree.of(file),
    })
}
