//! The stations that are reached from a station, step by step.
ghost use Rattle.std.specs.Prelude.{◌≡◌, ℕ, ◌^◌, ◌<◌, Decides, bit_or, bit_xor, slice_index};
ghost use Rattle.stations.specs.Sets.{In, Part, has};
ghost use Rattle.digraph.specs.Paths.{Path};
ghost use Rattle.digraph.specs.Search.{Closed, Next, newly, reach_set};

use crate::steps::Steps;

/// How many stations there can be.
pub const STATIONS: usize = 40;

/// The stations reached from `start`, itself included, where place `u` of `next` has the stations one step from `u`.
pub fn reached(next: &[u64; STATIONS], start: u8) -> u64
    requires in_range { start < 40 }
    requires bounded { (u : ℕ) → u < 40 → slice_index next.now u < 2 ^ 40 }
    ensures value { result ≡ reach_set next.now start }
    ensures small { result < 2 ^ 40 }
    ensures has_start { In result start }
    ensures closed { Closed next.now result }
    ensures least { (z : ℕ) → In z start → Closed next.now z → Part result z }
    ensures paths { (v : ℕ) → Decides (has result v) (Path (Next next.now) start v) }
{
    let mut progress = Progress::begin(start);
    while progress.todo != 0 {
        let station = progress.todo.trailing_zeros();
        progress.look(station, next[station as usize]);
    }
    progress.seen
}

impl Steps {
    /// The stations reached from `start`, itself included.
    pub fn reached(&self, start: u8) -> u64
        requires { start < 40 }
        ensures value { result ≡ reach_set self.now.next start }
        ensures small { result < 2 ^ 40 }
        ensures has_start { In result start }
        ensures closed { Closed self.now.next result }
        ensures least { (z : ℕ) → In z start → Closed self.now.next z → Part result z }
        ensures paths { (v : ℕ) → Decides (has result v) (Path (Next self.now.next) start v) }
    {
        reached(&self.next, start)
    }
}

/// A search under way: the stations seen, and those of them whose next stations have still to be looked at.
#[derive(Debug, Clone, Copy, PartialEq, Eq)]
struct Progress {
    seen: u64,
    todo: u64,
}

impl Progress {
    /// A search that has seen `start` alone.
    fn begin(start: u8) -> Progress
        requires { start < 64 }
        ensures seen { result.seen ≡ 2 ^ start }
        ensures todo { result.todo ≡ 2 ^ start }
    {
        Progress {
            seen: 1 << start,
            todo: 1 << start,
        }
    }

    /// Looks at `near`, the stations one step from `station`.
    fn look(&mut self, station: u32, near: u64)
        requires { station < 64 }
        ensures seen { self.new.seen ≡ bit_or self.old.seen (newly near self.old.seen) }
        ensures todo { self.new.todo ≡ bit_or (bit_xor self.old.todo (2 ^ station)) (newly near self.old.seen) }
    {
        let fresh = near & !self.seen;
        self.seen |= fresh;
        self.todo = self.todo ^ 1 << station | fresh;
    }
}
