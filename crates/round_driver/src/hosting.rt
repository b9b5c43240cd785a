//! The hosts of a run.
ghost use Rattle.std.specs.Prelude.{◌≡◌, map, All, IfOk};
ghost use Rattle.address_memo.specs.Memos.{Agree};
ghost use Rattle.round_driver.specs.Hosting.{IsNewHost};

use address_memo::Memo;
use graph_model::Way;
use host_core::Host;
use proxy_graph::LocalGraph;
use reduce_laws::VertexProgram;
use std::alloc::{AllocError, Global};

/// A host for each local graph and its memo, by number.
pub(crate) fn make_hosts<P: VertexProgram>(
    alloc: Global,
    graphs: Vec<LocalGraph>,
    memos: Vec<Memo>,
    program: P,
    way: Way,
) -> Result<Vec<Host<P>>, AllocError>
    requires { Agree way graphs.items memos.items }
    ensures graphs { IfOk result (λ hosts. map (λ host. host.graph) hosts.items ≡ graphs.items) }
    ensures memos { IfOk result (λ hosts. map (λ host. host.memo) hosts.items ≡ memos.items) }
    ensures new { IfOk result (λ hosts. All (IsNewHost P.Red.reducer (P.steps program) P.Red.Item.WIDTH P.Shown.WIDTH program way) hosts.items) }
{
    let mut hosts = Vec::with_capacity(alloc, graphs.len())?;
    for (graph, memo) in graphs.into_iter().zip(memos) {
        let host = Host::new(alloc, graph, memo, program, way)?;
        hosts.push(host)?;
    }
    Ok(hosts)
}
