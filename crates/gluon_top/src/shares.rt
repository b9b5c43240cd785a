//! From bytes to what each host holds of their graph.
ghost use Rattle.std.specs.Prelude.{◌≡◌, ◌≢◌, ℕ, IfOk, IfErr, IfSome, Err};
ghost use Rattle.cusp_rules.specs.Hosts.{IsHostCount};
ghost use Rattle.graph_division.specs.Partition.{IsPartition};
ghost use Rattle.job_text.specs.Fault.{cause_of};
ghost use Rattle.gluon_top.specs.Meaning.{graph_of, demand_node};
ghost use Rattle.gluon_top.specs.Outcome.{Counts, IfMeant, LeftAfter};
ghost use Rattle.gluon_top.specs.Loaded.{FindsShares};
ghost use Rattle.partition_build.specs.Meant.{AreShared};

use edge_owner::Rules;
use gr_reader::GrReader;
use graph_model::Way;
use io_edge::Source;
use job_text::Fault;
use partition_build::build_for;
use proxy_graph::LocalGraph;
use std::alloc::Global;

/// The graph that the source gives, divided among hosts; or the first fault, which may be that a root, where
/// there is one, is no node. Arcs are laid for the way of the run.
pub(crate) fn load_shares<S: Source>(
    alloc: Global,
    root: Option<u32>,
    hosts: u16,
    rules: Rules,
    way: Way,
    source: &mut S,
) -> Result<Vec<LocalGraph>, Fault>
    requires { IsHostCount hosts }
    ensures means { IfSome (S.left source.old) (λ bytes.
        FindsShares rules hosts (λ graphs. graphs.items) result (S.left source.new) (graph_of root bytes)) }
    ensures shared { IfOk result (λ graphs. (nodes : ℕ) × AreShared rules hosts nodes graphs.items) }
    ensures partition { IfOk result (λ graphs. IsPartition graphs.items) }
    ensures words { result ≢ Err Fault.Words }
    ensures taken { IfErr result (λ fault. IfMeant (cause_of fault) (IfSome (S.left source.old) (λ bytes.
        LeftAfter bytes fault (S.left source.new)))) }
    ensures counts { Counts result (S.faults source.old) (S.faults source.new) }
{
    let mut reader = GrReader::new(alloc)?;
    let head = reader.read_head(source)?;
    demand_node(root, head.nodes)?;
    Ok(build_for(alloc, &mut reader, source, rules, hosts, way)?)
}

/// Refuses a root that is no node of so many.
fn demand_node(root: Option<u32>, nodes: u32) -> Result<(), Fault>
    ensures { result ≡ demand_node root nodes }
{
    match root {
        Some(root) if root >= nodes => Err(Fault::Root { root, nodes }),
        _ => Ok(()),
    }
}
