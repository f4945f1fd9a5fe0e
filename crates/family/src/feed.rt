//! The feed family: every non-empty set of stations without the base.
ghost use Rattle.std.specs.Prelude.{◌≡◌, ℕ, ◌^◌, ◌<◌, ◌≤◌, IfOk, None};
ghost use Rattle.std.specs.Result.{result_err};
ghost use Rattle.refusal.specs.Checks.{first};
ghost use Rattle.sheet.specs.Calls.{open_checks};
ghost use Rattle.family.specs.Choices.{FeedMember, feed_smallest, feed_largest, fewest_from};
ghost use Rattle.family.specs.Feeds.{feed_common, feed_union, feed_smallest_found, feed_smallest_none, none_for_other_size, feed_largest_found, feed_largest_none};

use crate::interface::Family;
use crate::reach::{Direction, others, stations_reached, steps};
use digraph::steps::Steps;
use digraph::table::LINKS;
use refusal::Refusal;
use sheet::Sheet;
use stations::count::StationCount;
use stations::holds;

/// Every non-empty set without the base. Links that enter all of them feed every station.
#[derive(Clone, Copy, Debug, PartialEq, Eq)]
pub struct Feed {
    stations: StationCount,
}

impl Feed {
    /// The feed family for a number of stations. Each station but the base, alone, is a member.
    pub fn new(stations: u8) -> Result<Feed, Refusal>
        ensures refusal { result_err result ≡ first (open_checks stations) }
        ensures size { IfOk result (λ f. f.stations.count ≡ stations) }
        ensures members { IfOk result (λ f. (v : ℕ) → 0 < v → v < stations → FeedMember f.stations.count (2 ^ v)) }
    {
        Ok(Feed {
            stations: StationCount::try_from(stations)?,
        })
    }
}

impl Family for Feed {
    ghost size = { λ f. f.stations.count };

    ghost member = { λ f. FeedMember f.stations.count };

    ghost small = { λ f. feed_smallest f.stations.count };

    ghost large = { λ f. feed_largest f.stations.count };

    ghost inside = { λ f set member. member.inside };

    ghost some = { λ f set member. member.some };

    ghost common_part = { λ f x y s p q i j. feed_common f.stations.count x y s p q i j };

    ghost union = { λ f x y s p q i j. feed_union f.stations.count x y s p q i j };

    ghost smallest_found = { λ f h marks set sound right e. feed_smallest_found f.stations.count h marks sound right set e };

    ghost smallest_none = { λ f h marks set sound right e member. feed_smallest_none f.stations.count h marks sound right set e member };

    ghost smallest_elsewhere = { λ f h marks other. none_for_other_size f.stations.count h _ other };

    ghost largest_found = { λ f h marks set sound right e. feed_largest_found f.stations.count h marks sound right set e };

    ghost largest_none = { λ f h marks set sound right e member. feed_largest_none f.stations.count h marks sound right set e member };

    ghost largest_elsewhere = { λ f h marks other. none_for_other_size f.stations.count h _ other };

    fn stations(&self) -> u8 {
        self.stations.get()
    }

    fn smallest(&self, sheet: &Sheet, marks: &[u8; LINKS]) -> Option<u64> {
        if sheet.stations() != self.stations() {
            return None;
        }
        fewest(&steps(sheet, marks, Direction::Back), self.stations)
    }

    fn largest(&self, sheet: &Sheet, marks: &[u8; LINKS]) -> Option<u64> {
        if sheet.stations() != self.stations() {
            return None;
        }
        let rest = others(self.stations(), stations_reached(sheet, marks, 0));
        (rest != 0).then_some(rest)
    }
}

/// Of the sets around the stations, the one without the base that has the fewest stations, that of the
/// lowest station among equals.
fn fewest(steps: &Steps, stations: StationCount) -> Option<u64>
    ensures { result ≡ fewest_from steps.now.next None 0 stations.count }
{
    (0..stations.get())
        .map(|station| steps.reached(station))
        .filter(|&set| !holds(set, 0))
        .min_by_key(|set| set.count_ones())
}
