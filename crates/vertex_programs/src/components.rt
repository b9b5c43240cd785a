//! Components: the least vertex from which a walk leads here.
ghost use Rattle.std.specs.Prelude.{◌<◌, ◌^◌};
ghost use Rattle.vertex_programs.specs.Programs.{cc_steps, cc_laws};

use reduce_laws::{MinU32, VertexProgram};

/// The least vertex from which a walk leads to each vertex.
#[derive(Clone, Copy)]
pub struct Components;

impl VertexProgram for Components {
    type Red = MinU32;

    type State = u32;

    type Shown = u32;

    ghost IsState = { λ x. x < 256 ^ 4 };

    ghost steps = { λ program. cc_steps };

    ghost laws = { λ program. cc_laws };

    fn start(&self, v: u32) -> u32 {
        v
    }

    fn shown(&self, state: u32) -> u32 {
        state
    }

    fn along(&self, shown: u32, _weight: u32) -> u32 {
        shown
    }

    fn settle(&self, state: u32, got: u32) -> u32 {
        state.min(got)
    }

    fn keep(&self, shown: u32) -> u32 {
        shown
    }

    fn answer(&self, state: u32) -> Option<u64> {
        if state == u32::MAX {
            None
        } else {
            Some(u64::from(state))
        }
    }
}
