//! The route family: the sets that a route from one station to another has to enter.
ghost use Rattle.std.specs.Prelude.{◌≡◌, ◌^◌, ◌<◌, ◌≤◌, IfOk, ◌≢◌};
ghost use Rattle.std.specs.Result.{result_err};
ghost use Rattle.refusal.specs.Checks.{first};
ghost use Rattle.family.specs.Choices.{RouteMember, route_smallest, route_largest};
ghost use Rattle.family.specs.Making.{route_checks};
ghost use Rattle.family.specs.Routes.{route_member_is_some, route_common, route_union, route_smallest_found, route_smallest_none, route_largest_found, route_largest_none};
ghost use Rattle.family.specs.Feeds.{none_for_other_size};

use crate::interface::Family;
use crate::reach::{others, stations_reached, stations_reaching};
use digraph::table::LINKS;
use refusal::Refusal;
use sheet::Sheet;
use stations::count::StationCount;
use stations::holds;

/// The sets with the route's end and without its start. Links that enter all of them lead from the
/// start to the end.
#[derive(Clone, Copy, Debug, PartialEq, Eq)]
pub struct Route {
    stations: StationCount,
    start: u8,
    end: u8,
    ghost starts: { start < stations.count },
    ghost ends: { end < stations.count },
    ghost apart: { start ≢ end },
}

impl Route {
    /// The family of a route from `start` to `end`, for a number of stations. The end alone is a member.
    pub fn new(stations: u8, start: u8, end: u8) -> Result<Route, Refusal>
        ensures refusal { result_err result ≡ first (route_checks stations start end) }
        ensures size { IfOk result (λ f. (f.stations.count ≡ stations) × (f.start ≡ start) × (f.end ≡ end)) }
        ensures members { IfOk result (λ f. RouteMember f.stations.count f.start f.end (2 ^ f.end)) }
    {
        let count = StationCount::try_from(stations)?;
        if start >= stations || end >= stations {
            return Err(Refusal::NoSuchStation);
        }
        if start == end {
            return Err(Refusal::EqualRouteEnds);
        }
        Ok(Route {
            stations: count,
            start,
            end,
        })
    }
}

impl Family for Route {
    ghost size = { λ f. f.stations.count };

    ghost member = { λ f. RouteMember f.stations.count f.start f.end };

    ghost small = { λ f. route_smallest f.stations.count f.start f.end };

    ghost large = { λ f. route_largest f.stations.count f.start f.end };

    ghost inside = { λ f set member. member.inside };

    ghost some = { λ f set member. route_member_is_some f.stations.count f.start f.end set member };

    ghost common_part = { λ f x y s p q i j. route_common f.stations.count f.start f.end x y s p q i j };

    ghost union = { λ f x y s p q i j. route_union f.stations.count f.start f.end x y s p q i j };

    ghost smallest_found = { λ f h marks set sound right e. route_smallest_found f.stations.count f.start f.end f.starts f.ends h marks sound right set e };

    ghost smallest_none = { λ f h marks set sound right e member. route_smallest_none f.stations.count f.start f.end f.starts f.ends h marks sound right set e member };

    ghost smallest_elsewhere = { λ f h marks other. none_for_other_size f.stations.count h _ other };

    ghost largest_found = { λ f h marks set sound right e. route_largest_found f.stations.count f.start f.end f.starts f.ends h marks sound right set e };

    ghost largest_none = { λ f h marks set sound right e member. route_largest_none f.stations.count f.start f.end f.starts f.ends h marks sound right set e member };

    ghost largest_elsewhere = { λ f h marks other. none_for_other_size f.stations.count h _ other };

    fn stations(&self) -> u8 {
        self.stations.get()
    }

    fn smallest(&self, sheet: &Sheet, marks: &[u8; LINKS]) -> Option<u64> {
        if sheet.stations() != self.stations() {
            return None;
        }
        let set = stations_reaching(sheet, marks, self.end);
        (!holds(set, self.start)).then_some(set)
    }

    fn largest(&self, sheet: &Sheet, marks: &[u8; LINKS]) -> Option<u64> {
        if sheet.stations() != self.stations() {
            return None;
        }
        let rest = others(self.stations(), stations_reached(sheet, marks, self.start));
        holds(rest, self.end).then_some(rest)
    }
}
