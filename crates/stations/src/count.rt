//! How many stations there are.
ghost use Rattle.std.specs.Prelude.{◌≡◌, ◌≤◌};

use thiserror::Error;

/// How many stations a sheet or a family has: 2 to 40.
#[derive(Clone, Copy, Debug, PartialEq, Eq)]
pub struct StationCount {
    pub count: u8,
    pub ghost some: { 2 ≤ count },
    pub ghost few: { count ≤ 40 },
}

/// Fewer than 2 or more than 40 stations.
#[derive(Clone, Copy, Debug, PartialEq, Eq, Error)]
#[error("fewer than 2 or more than 40 stations")]
pub struct WrongCount;

impl StationCount {
    /// The number itself.
    pub fn get(self) -> u8
        ensures { result ≡ self.count }
    {
        self.count
    }
}

impl TryFrom<u8> for StationCount {
    ghost use Rattle.stations.specs.Counts.{Counts};

    type Error = WrongCount;

    ghost try_from_gives = { Counts };

    fn try_from(count: u8) -> Result<StationCount, WrongCount> {
        if count < 2 || 40 < count {
            return Err(WrongCount);
        }
        Ok(StationCount { count })
    }
}
