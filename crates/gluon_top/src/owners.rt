//! From rules and bytes to masters and owners.
ghost use Rattle.std.specs.Prelude.{◌≡◌, ◌≢◌, length, IfOk, IfErr, IfSome, Err};
ghost use Rattle.cusp_rules.specs.Hosts.{IsHostCount};
ghost use Rattle.gr_reader.specs.File.{file_at};
ghost use Rattle.job_text.specs.Fault.{cause_of};
ghost use Rattle.gluon_top.specs.Meaning.{of_input};
ghost use Rattle.gluon_top.specs.Outcome.{Counts, IfMeant, LeftAfter};
ghost use Rattle.job_text.specs.Owners.{owners_text, plan_text};
ghost use Rattle.gluon_top.specs.Loaded.{LoadsWith};

use edge_owner::Rules;
use gr_reader::read_graph;
use graph_model::EdgeList;
use io_edge::Source;
use job_text::Fault;
use share_plan::SharePlan;
use std::alloc::Global;

/// The graph that the source gives, and which host has each of its vertices and edges; or the first fault.
pub(crate) fn owners<S: Source>(
    alloc: Global,
    hosts: u16,
    rules: Rules,
    source: &mut S,
) -> Result<(EdgeList, SharePlan), Fault>
    requires { IsHostCount hosts }
    ensures means { IfSome (S.left source.old) (λ bytes.
        LoadsWith (λ owned. owned.0) result (S.left source.new) (of_input (file_at bytes))) }
    ensures text { IfOk result (λ owned. plan_text owned.1 owned.0 ≡ owners_text rules hosts owned.0) }
    ensures vertices { IfOk result (λ owned. length owned.1.masters ≡ owned.0.nodes) }
    ensures words { result ≢ Err Fault.Words }
    ensures taken { IfErr result (λ fault. IfMeant (cause_of fault) (IfSome (S.left source.old) (λ bytes.
        LeftAfter bytes fault (S.left source.new)))) }
    ensures counts { Counts result (S.faults source.old) (S.faults source.new) }
{
    let list = read_graph(alloc, source)?;
    let plan = SharePlan::new(alloc, rules, hosts, &list)?;
    Ok((list, plan))
}
