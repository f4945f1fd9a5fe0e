//! All records of a file, one after another.
ghost use Rattle.std.specs.Prelude.{◌≡◌, ℕ, ◌/◌, ◌<◌, ◌≤◌, false, map, length, slice_index_or};
ghost use Rattle.std.specs.Result.{result_map_both};
ghost use Rattle.amount.specs.Records.{length_of_record};
ghost use Rattle.sheet.specs.Held.{held};
ghost use Rattle.sheet_file.specs.Files.{entries_from, entry_at};
ghost use Rattle.sheet_file.specs.Loading.{mentions};
ghost use Rattle.sheet_file.specs.Placing.{placing, writing};

use crate::entry::{count_records, record_at};
use amount::kind::Amount;
use refusal::Refusal;
use sheet::Sheet;

/// Puts the links of all records on a sheet, or tells which record was refused and why.
pub fn place_records<T: Amount>(sheet: &mut Sheet, records: &[u8]) -> Result<(), Refusal>
    requires { length records.now ≤ 4096 }
    ensures { result_map_both (λ _. held sheet.new) (λ e. e) result ≡ placing 0 (held sheet.old) (entries_from T.width records.now 0 (length records.now / length_of_record T.width)) }
{
    // By place, and not over pieces of a record's length: so what a record is stands in `record_at` alone.
    for place in 0..count_records::<T>(records) {
        let record = record_at::<T>(records, place);
        sheet
            .place(record.number, record.link, record.price)
            .map_err(|why| Refusal::FileRecord(place as u16, why))?;
    }
    Ok(())
}

/// Writes the price of every record into the column, at its number.
pub fn write_prices<T: Amount>(prices: &mut [T], records: &[u8])
    requires { (place : ℕ) → place < length records.now / length_of_record T.width → (entry_at T.width records.now place).number < length prices.old }
    ensures written { map T.parts prices.new ≡ writing (map T.parts prices.old) (entries_from T.width records.now 0 (length records.now / length_of_record T.width)) }
    ensures untouched { (k : ℕ) (d : T) → mentions k (entries_from T.width records.now 0 (length records.now / length_of_record T.width)) ≡ false → slice_index_or prices.new k d ≡ slice_index_or prices.old k d }
{
    for place in 0..count_records::<T>(records) {
        let record = record_at::<T>(records, place);
        prices[usize::from(record.number)] = record.price;
    }
}
