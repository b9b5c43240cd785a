//! How the fields of a host start.
ghost use Rattle.std.specs.Prelude.{◌≡◌, ◌≤◌, ℕ, true, false, nat_lt, length, IfOk};
ghost use Rattle.std.specs.List.{All, count_by, range_with_len};
ghost use Rattle.list_laws.specs.Members.{has_member};
ghost use Rattle.cluster_laws.specs.Channels.{is_needed};
ghost use Rattle.address_memo.specs.Kinds.{list_for};
ghost use Rattle.host_fields.specs.Started.{AreStates, AreShown, AreItems};

use address_memo::{ListKind, Memo};
use proxy_graph::LocalGraph;
use reduce_laws::{Reduction, VertexProgram};
use std::alloc::{AllocError, Global};
use update_bits::UpdateBits;

/// The state in which each master of the graph starts.
pub fn start_states<P: VertexProgram>(
    alloc: Global,
    program: &P,
    graph: &LocalGraph,
) -> Result<Vec<P::State>, AllocError>
    ensures states { IfOk result (λ states. AreStates (P.steps program.now) graph.now states.items) }
    ensures are_states { IfOk result (λ states. All P.IsState states.items) }
{
    let mut states = Vec::with_capacity(alloc, graph.masters() as usize)?;
    for lid in 0..graph.masters() {
        states.push(program.start(graph.global(lid)))?;
    }
    Ok(states)
}

/// What each proxy of the graph shows at the start.
pub fn start_shown<P: VertexProgram>(
    alloc: Global,
    program: &P,
    graph: &LocalGraph,
) -> Result<Vec<P::Shown>, AllocError>
    ensures shown { IfOk result (λ shown. AreShown (P.steps program.now) graph.now shown.items) }
    ensures are_shown { IfOk result (λ shown. All P.Shown.IsValue shown.items) }
{
    let mut shown = Vec::with_capacity(alloc, graph.proxies() as usize)?;
    for lid in 0..graph.proxies() {
        let state = program.start(graph.global(lid));
        shown.push(program.shown(state))?;
    }
    Ok(shown)
}

/// The item that a proxy has at the start: a master the identity, and a mirror what it keeps of what it shows.
fn start_item<P: VertexProgram>(
    program: &P,
    is_master: bool,
    shown: P::Shown,
) -> <P::Red as Reduction>::Item
    requires { P.Shown.IsValue shown }
    ensures master { is_master ≡ true → result ≡ P.Red.reducer.identity }
    ensures mirror { is_master ≡ false → result ≡ (P.steps program.now).keep shown }
    ensures is_item { P.Red.Item.IsValue result }
{
    if is_master {
        P::Red::identity()
    } else {
        program.keep(shown)
    }
}

/// The item that each proxy has at the start: a master the identity, and a mirror what it keeps of what
/// its vertex shows. Masters have the local numbers below `masters`.
pub fn start_items<P: VertexProgram>(
    alloc: Global,
    program: &P,
    masters: u32,
    shown: &[P::Shown],
) -> Result<Vec<<P::Red as Reduction>::Item>, AllocError>
    requires masters_fit { masters ≤ length shown.now }
    requires shown_are { All P.Shown.IsValue shown.now }
    ensures items { IfOk result (λ items. AreItems P.Red.reducer (P.steps program.now) masters shown.now items.items) }
    ensures are_items { IfOk result (λ items. All P.Red.Item.IsValue items.items) }
{
    let mut items = Vec::with_capacity(alloc, shown.len())?;
    for (lid, value) in shown.iter().enumerate() {
        items.push(start_item(program, lid < masters as usize, *value))?;
    }
    Ok(items)
}

/// The set of all masters, which have the local numbers below `masters`, among so many proxies.
pub fn start_news(alloc: Global, masters: u32, proxies: u32) -> Result<UpdateBits, AllocError>
    requires { masters ≤ proxies }
    ensures length { IfOk result (λ news. length news ≡ proxies) }
    ensures masters { IfOk result (λ news. (l : ℕ) → has_member news l ≡ nat_lt l masters) }
{
    let mut news = UpdateBits::new(alloc, proxies)?;
    for lid in 0..masters {
        news.set(lid);
    }
    Ok(news)
}

/// How many of a host's lists of this kind are not empty.
pub fn count_needed(memo: &Memo, kind: ListKind, hosts: u16) -> u16
    requires { hosts ≡ memo.now.hosts }
    ensures { result ≡ count_by (λ peer. is_needed (list_for memo.now kind peer).globals) (range_with_len 0 hosts) }
{
    let mut count = 0;
    for peer in 0..hosts {
        if !memo.list(kind, peer).globals().is_empty() {
            count += 1;
        }
    }
    count
}
