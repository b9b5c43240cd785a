//! The k-core: which vertices are left once all with too few arcs have gone.
ghost use Rattle.std.specs.Prelude.{◌≡◌};
ghost use Rattle.kcore_program.specs.Steps as Steps;
ghost use Rattle.kcore_program.specs.Steps.{core_steps, core_laws, IsCoreState};

use crate::core_state::CoreState;
use reduce_laws::{AddU32, VertexProgram};

/// Which vertices are in the largest set in which each has `k` arcs or more from the set.
#[derive(Clone, Copy)]
pub struct Kcore {
    pub k: u32,
}

/// Stays with this degree, or leaves.
fn stays_or_leaves(k: u32, degree: u32) -> CoreState
    ensures { result ≡ Steps.stays_or_leaves k degree }
{
    if k <= degree {
        CoreState::Stays(degree)
    } else {
        CoreState::Left
    }
}

impl VertexProgram for Kcore {
    type Red = AddU32;

    type State = CoreState;

    type Shown = u8;

    ghost IsState = { IsCoreState };

    ghost steps = { λ program. core_steps program.k };

    ghost laws = { λ program. core_laws program.k };

    fn start(&self, _v: u32) -> CoreState {
        CoreState::Fresh
    }

    fn shown(&self, state: CoreState) -> u8 {
        match state {
            CoreState::Left => 1,
            _ => 0,
        }
    }

    fn along(&self, _shown: u8, _weight: u32) -> u32 {
        1
    }

    fn settle(&self, state: CoreState, got: u32) -> CoreState {
        match state {
            CoreState::Fresh => stays_or_leaves(self.k, got),
            CoreState::Stays(degree) => stays_or_leaves(self.k, degree.saturating_sub(got)),
            CoreState::Left => CoreState::Left,
        }
    }

    fn keep(&self, _shown: u8) -> u32 {
        0
    }

    fn answer(&self, state: CoreState) -> Option<u64> {
        match state {
            CoreState::Left => Some(0),
            _ => Some(1),
        }
    }
}
