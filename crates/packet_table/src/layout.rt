//! Where each buffer starts in the block.
ghost use Rattle.std.specs.Prelude.{◌≡◌, ◌<◌, ◌^◌, sum, IfOk};
ghost use Rattle.packet_table.specs.Table.{rooms_of};
ghost use Rattle.packet_table.specs.Block.{AreStarts};

use crate::channel_spec::ChannelSpec;
use std::alloc::{AllocError, Global};

// Where buffers that lie one behind the other start, and how long they are together.
#[derive(Drop)]
pub struct Layout {
    pub starts: Vec<usize>,
    pub len: usize,
}

// The buffers of these channels, in their order.
pub fn lay_out(alloc: Global, specs: &[ChannelSpec]) -> Result<Layout, AllocError>
    requires { sum (rooms_of specs.now) < 2 ^ 63 }
    ensures starts { IfOk result (λ layout. AreStarts (rooms_of specs.now) layout.starts.items) }
    ensures len { IfOk result (λ layout. layout.len ≡ sum (rooms_of specs.now)) }
{
    let mut starts = Vec::with_capacity(alloc, specs.len())?;
    let mut len: usize = 0;
    for spec in specs {
        starts.push(len)?;
        len += spec.room as usize;
    }
    Ok(Layout { starts, len })
}
