//! Loading a sheet file.
ghost use Rattle.std.specs.Prelude.{◌≡◌, ℕ, ◌/◌, ◌<◌, ◌≤◌, Bool, true, false, map, length, is_ok, Decides, slice_index_or};
ghost use Rattle.std.specs.Result.{result_map_both};
ghost use Rattle.amount.specs.Records.{length_of_record};
ghost use Rattle.digraph.specs.Trees.{SpanningTree};
ghost use Rattle.sheet.specs.Held.{held, opened};
ghost use Rattle.sheet_file.specs.Files.{entries, entries_from, stations_of, tree_numbers};
ghost use Rattle.sheet_file.specs.Loading.{with_column, loading, file_links, links_of, mentions, no_links};
ghost use Rattle.sheet_file.specs.Placing.{placing, sheet_from};

use crate::records::{place_records, write_prices};
use crate::view::{SheetFile, view};
use amount::kind::Amount;
use digraph::table::LINKS;
use refusal::Refusal;
use sheet::Sheet;

/// Loads a sheet file: the sheet and the column come to hold what opening the sheet, adding the file's
/// links and installing its tree give. What the sheet held before is gone; of the column only the
/// places of the file's links are written. A refused load changes nothing.
pub fn load<T: Amount>(sheet: &mut Sheet, prices: &mut [T], file: &[u8]) -> Result<(), Refusal>
    ensures loaded { (spans : Bool) → Decides spans (SpanningTree (stations_of file.now) (file_links T.width file.now) (tree_numbers file.now)) → result_map_both (λ _. with_column (held sheet.new) (map T.parts prices.new)) (λ e. e) result ≡ loading T.width T.KIND file.now (map T.parts prices.old) spans }
    ensures sheet_kept { is_ok result ≡ false → sheet.new ≡ sheet.old }
    ensures column_kept { is_ok result ≡ false → prices.new ≡ prices.old }
    ensures untouched { (k : ℕ) (d : T) → mentions k (entries T.width file.now) ≡ false → slice_index_or prices.new k d ≡ slice_index_or prices.old k d }
{
    if prices.len() != LINKS {
        return Err(Refusal::ColumnSize);
    }
    let seen = view::<T>(file)?;
    let loaded = sheet_in::<T>(seen)?;
    write_prices(prices, seen.records);
    *sheet = loaded;
    Ok(())
}

/// The sheet that a file's sections say, or what is wrong with its records or its tree.
fn sheet_in<T: Amount>(file: SheetFile<'_>) -> Result<Sheet, Refusal>
    requires { length file.records.now ≤ 4096 }
    ensures placed { is_ok result ≡ true → is_ok (placing 0 (opened file.entry.stations.count) (entries_from T.width file.entry.records.now 0 (length file.entry.records.now / length_of_record T.width))) ≡ true }
    ensures sheet { (spans : Bool) → Decides spans (SpanningTree file.entry.stations.count (links_of no_links (entries_from T.width file.entry.records.now 0 (length file.entry.records.now / length_of_record T.width))) file.entry.tree.now) → result_map_both held (λ e. e) result ≡ sheet_from file.entry.stations.count (entries_from T.width file.entry.records.now 0 (length file.entry.records.now / length_of_record T.width)) file.entry.tree.now spans }
{
    let mut sheet = Sheet::for_stations(file.stations);
    place_records::<T>(&mut sheet, file.records)?;
    if file.tree.is_empty() {
        return Ok(sheet);
    }
    sheet.plant(&file.tree).map_err(Refusal::FileTree)?;
    Ok(sheet)
}
