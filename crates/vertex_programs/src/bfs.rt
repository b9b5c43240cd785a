//! Breadth-first search: how many arcs lead from a root.
ghost use Rattle.std.specs.Prelude.{◌<◌, ◌^◌};
ghost use Rattle.vertex_programs.specs.Programs.{bfs_steps, bfs_laws};

use reduce_laws::{MinU32, VertexProgram};

/// How many arcs lead from the root to each vertex.
#[derive(Clone, Copy)]
pub struct Bfs {
    pub root: u32,
}

impl VertexProgram for Bfs {
    type Red = MinU32;

    type State = u32;

    type Shown = u32;

    ghost IsState = { λ x. x < 256 ^ 4 };

    ghost steps = { λ program. bfs_steps program.root };

    ghost laws = { λ program. bfs_laws program.root };

    fn start(&self, v: u32) -> u32 {
        if v == self.root { 0 } else { u32::MAX }
    }

    fn shown(&self, state: u32) -> u32 {
        state
    }

    fn along(&self, shown: u32, _weight: u32) -> u32 {
        shown.saturating_add(1)
    }

    fn settle(&self, state: u32, got: u32) -> u32 {
        state.min(got)
    }

    fn keep(&self, shown: u32) -> u32 {
        shown
    }

    fn answer(&self, state: u32) -> Option<u64> {
        if state == u32::MAX {
            None
        } else {
            Some(u64::from(state))
        }
    }
}
