//! The steps along links, as masks: for each station the stations one step from it.
ghost use Rattle.std.specs.Prelude.{◌≡◌, ℕ, ◌^◌, ◌<◌, length, replicate, slice_index};
ghost use Rattle.digraph.specs.Steps.{Low, with_step};

use crate::link::Link;
use crate::search::STATIONS;

/// For each station the stations one step from it, as a mask.
#[derive(Debug, Clone, Copy, PartialEq, Eq)]
pub struct Steps {
    pub next: [u64; STATIONS],
    ghost sized: { length next ≡ 40 },
    ghost bounded: { (u : ℕ) → slice_index next u < 2 ^ 40 },
}

/// Adds the step from a link's tail to its head, if there is a link, to masks of any stations.
pub fn add_step(next: &mut [u64; STATIONS], link: Option<Link>)
    requires { Low link }
    ensures { next.new ≡ with_step next.old link }
{
    if let Some(Link { tail, head }) = link {
        next[tail as usize] |= 1 << head;
    }
}

impl Steps {
    /// No steps.
    pub fn none() -> Steps
        ensures { result.next ≡ replicate 40 0 }
    {
        Steps {
            next: [0; STATIONS],
        }
    }

    /// Adds the step from a link's tail to its head, if there is a link.
    pub fn add(&mut self, link: Option<Link>)
        requires { Low link }
        ensures { self.new.next ≡ with_step self.old.next link }
    {
        add_step(&mut self.next, link);
    }
}
