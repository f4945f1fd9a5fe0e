//! Stations reached along marked links.
ghost use Rattle.std.specs.Prelude.{◌≡◌, ℕ, ◌^◌, ◌<◌, ◌≤◌, Decides};
ghost use Rattle.stations.specs.Sets.{In, Part, has};
ghost use Rattle.digraph.specs.Paths.{Path};
ghost use Rattle.sheet.specs.Held.{held};
ghost use Rattle.family.specs.Choices.{others as others_of};
ghost use Rattle.family.specs.Laws.{Unentered};
ghost use Rattle.family.specs.Reach.{MarkedStep, turned, marked_link, marked_steps, reaching, reached_from};

use digraph::link::Link;
use digraph::steps::Steps;
use digraph::table::LINKS;
use sheet::Sheet;

/// Which way links are gone along: from tail to head, or from head to tail.
#[derive(Clone, Copy, Debug, PartialEq, Eq)]
pub enum Direction {
    Forth,
    Back,
}

impl Direction {
    /// A link as it is gone along.
    pub fn turn(self, link: Link) -> Link
        ensures { result ≡ turned self link }
    {
        match self {
            Direction::Forth => link,
            Direction::Back => Link {
                tail: link.head,
                head: link.tail,
            },
        }
    }
}

/// The link of number `k` as it is gone along, if it is marked.
fn marked(sheet: &Sheet, marks: &[u8; LINKS], way: Direction, k: u16) -> Option<Link>
    requires { k < 200 }
    ensures { result ≡ marked_link way (held sheet.now).links marks.now k }
{
    if marks[k as usize] == 0 {
        return None;
    }
    sheet.link(k).map(|link| way.turn(link))
}

/// For each station the stations one step along a marked link from it.
pub fn steps(sheet: &Sheet, marks: &[u8; LINKS], way: Direction) -> Steps
    ensures { result.next ≡ marked_steps way (held sheet.now).links marks.now }
{
    let mut steps = Steps::none();
    for k in 0..LINKS as u16 {
        steps.add(marked(sheet, marks, way, k));
    }
    steps
}

/// The stations from which `station` is reached along marked links, itself included: the least set with
/// it that no marked link enters.
pub fn stations_reaching(sheet: &Sheet, marks: &[u8; LINKS], station: u8) -> u64
    requires { station < (held sheet.now).stations }
    ensures value { result ≡ reaching (held sheet.now).links marks.now station }
    ensures inside { result < 2 ^ (held sheet.now).stations }
    ensures has_it { In result station }
    ensures unentered { Unentered (held sheet.now).links marks.now result }
    ensures least { (z : ℕ) → In z station → Unentered (held sheet.now).links marks.now z → Part result z }
    ensures paths { (u : ℕ) → Decides (has result u) (Path (MarkedStep (held sheet.now).links marks.now) u station) }
{
    steps(sheet, marks, Direction::Back).reached(station)
}

// Not one function with `stations_reaching`, for a direction: what each promises differs, and only the
// set that is found going back is the least one that no marked link enters.

/// The stations reached from `station` along marked links, itself included.
pub fn stations_reached(sheet: &Sheet, marks: &[u8; LINKS], station: u8) -> u64
    requires { station < (held sheet.now).stations }
    ensures value { result ≡ reached_from (held sheet.now).links marks.now station }
    ensures inside { result < 2 ^ (held sheet.now).stations }
    ensures has_it { In result station }
    ensures paths { (v : ℕ) → Decides (has result v) (Path (MarkedStep (held sheet.now).links marks.now) station v) }
{
    steps(sheet, marks, Direction::Forth).reached(station)
}

/// The stations that are not in `set`.
// Of any number of them up to 40: a `StationCount` would refuse 0 and 1.
pub fn others(stations: u8, set: u64) -> u64
    requires few { stations ≤ 40 }
    requires inside { set < 2 ^ stations }
    ensures { result ≡ others_of stations set }
{
    (1 << stations) - 1 - set
}
