//! Sets of stations, as masks: bit `s` of a `u64` stands for station `s`.
#![tactic(auto)]

ghost use Rattle.std.specs.Prelude.{◌≡◌, ◌<◌};
ghost use Rattle.stations.specs.Sets.{has};

pub mod count;
pub mod rising;

/// Whether `station` is in `set`.
pub fn holds(set: u64, station: u8) -> bool
    requires { station < 64 }
    ensures { result ≡ has set station }
{
    (set >> station) % 2 == 1
}
