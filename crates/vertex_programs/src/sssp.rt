//! Shortest paths: how much the cheapest way from a root costs.
ghost use Rattle.std.specs.Prelude.{◌<◌, ◌^◌};
ghost use Rattle.vertex_programs.specs.Programs.{sssp_steps, sssp_laws};

use reduce_laws::{MinU64, VertexProgram};

/// How much the cheapest way from the root to each vertex costs.
#[derive(Clone, Copy)]
pub struct Sssp {
    pub root: u32,
}

impl VertexProgram for Sssp {
    type Red = MinU64;

    type State = u64;

    type Shown = u64;

    ghost IsState = { λ x. x < 256 ^ 8 };

    ghost steps = { λ program. sssp_steps program.root };

    ghost laws = { λ program. sssp_laws program.root };

    fn start(&self, v: u32) -> u64 {
        if v == self.root { 0 } else { u64::MAX }
    }

    fn shown(&self, state: u64) -> u64 {
        state
    }

    fn along(&self, shown: u64, weight: u32) -> u64 {
        shown.saturating_add(u64::from(weight))
    }

    fn settle(&self, state: u64, got: u64) -> u64 {
        state.min(got)
    }

    fn keep(&self, shown: u64) -> u64 {
        shown
    }

    fn answer(&self, state: u64) -> Option<u64> {
        if state == u64::MAX { None } else { Some(state) }
    }
}
