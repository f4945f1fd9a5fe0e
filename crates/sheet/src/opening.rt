//! Making and opening a sheet.
ghost use Rattle.std.specs.Prelude.{◌≡◌, false, is_ok, if◌then◌else◌};
ghost use Rattle.std.specs.Result.{result_err};
ghost use Rattle.refusal.specs.Checks.{first};
ghost use Rattle.sheet.specs.Held.{held, opened};
ghost use Rattle.sheet.specs.Calls.{open_checks};

use crate::Sheet;
use digraph::table::LinkTable;
use refusal::Refusal;
use stations::count::StationCount;

impl Sheet {
    /// A new sheet, as if opened for 2 stations.
    pub fn new() -> Sheet
        ensures { held result ≡ opened 2 }
    {
        Sheet::for_stations(StationCount { count: 2 })
    }

    /// A sheet opened for `stations` stations: without links and without a tree.
    pub fn for_stations(stations: StationCount) -> Sheet
        ensures { held result ≡ opened stations.count }
    {
        Sheet {
            stations,
            links: LinkTable::empty(),
            tree: None,
        }
    }

    /// Opens the sheet anew for `stations` stations: no links and no tree are left on it.
    pub fn open(&mut self, stations: u8) -> Result<(), Refusal>
        ensures refusal { result_err result ≡ first (open_checks stations) }
        ensures kept { is_ok result ≡ false → self.new ≡ self.old }
        ensures holds { held self.new ≡ (if is_ok result then opened stations else held self.old) }
    {
        *self = Sheet::for_stations(StationCount::try_from(stations)?);
        Ok(())
    }
}
