//! Pushes along arcs.
ghost use Rattle.std.specs.Prelude.{◌≡◌, ◌<◌, ◌≤◌, ℕ, List, Bool, false, length, nat_lt};
ghost use Rattle.std.specs.List.{All, slice_index_or, slice_set};
ghost use Rattle.list_laws.specs.Members.{has_member};
ghost use Rattle.graph_division.specs.Shares.{IsShare, masters_here, proxies_here};
ghost use Rattle.proxy_graph.specs.Heads.{heads_from};
ghost use Rattle.host_state.specs.Gained.{Gains};
ghost use Rattle.arc_push.specs.Pushing.{IsLent, has_news, brought_by, Begins, Brings};

use graph_model::Way;
use proxy_graph::{Heads, LocalGraph, Run};
use reduce_laws::{Reduction, VertexProgram};
use update_bits::UpdateBits;

/// Combines, over each arc of the graph whose tail is awake, the item that goes along it into the item of
/// its head. Shown values, items and the sets go by local number, and have a place for each proxy.
///
/// A mirror gets into the set `news` exactly where its item changed. It is not there before, and where
/// items are not kept it has the identity. A master gets there where its item changes on the way.
pub fn push_awake<P: VertexProgram>(
    program: &P,
    graph: &LocalGraph,
    way: Way,
    shown: &[P::Shown],
    awake: &UpdateBits,
    items: &mut [<P::Red as Reduction>::Item],
    news: &mut UpdateBits,
)
    requires shown_fit { length shown.now ≡ length (proxies_here graph.now) }
    requires awake_fit { length awake.now ≡ length (proxies_here graph.now) }
    requires items_fit { length items.old ≡ length (proxies_here graph.now) }
    requires news_fit { length news.old ≡ length (proxies_here graph.now) }
    requires shown_are { All P.Shown.IsValue shown.now }
    requires items_are { All P.Red.Item.IsValue items.old }
    requires no_news { (l : ℕ) → length (masters_here graph.now) ≤ l → has_member news.old l ≡ false }
    requires nothing_kept { P.Red.reducer.keeps ≡ false → (l : ℕ) (d : P.Red.Item) → length (masters_here graph.now) ≤ l → l < length (proxies_here graph.now)
        → slice_index_or items.old l d ≡ P.Red.reducer.identity }
    ensures gains { Gains P.Red.reducer (P.steps program.now) graph.now way shown.now awake.now items.old news.old items.new news.new }
    ensures are_items { All P.Red.Item.IsValue items.new }
{
    told(graph);
    let mut at = 0;
    while let Some(tail) = awake.next_from(at) {
        push_along(program, graph, way, tail, shown[tail as usize], items, news);
        at = tail + 1;
    }
}

/// Does nothing: it tells a proof what holds of every local graph.
fn told(graph: &LocalGraph)
    ensures { IsShare graph.now }
{
    graph.nodes();
}

/// Combines the items along the arcs out of one tail, which shows `y`, into the items of their heads.
fn push_along<P: VertexProgram>(
    program: &P,
    graph: &LocalGraph,
    way: Way,
    tail: u32,
    y: P::Shown,
    items: &mut [<P::Red as Reduction>::Item],
    news: &mut UpdateBits,
)
    requires is_share { IsShare graph.now }
    requires known { tail < length (proxies_here graph.now) }
    requires is_shown { P.Shown.IsValue y }
    requires items_fit { length items.old ≡ length (proxies_here graph.now) }
    requires news_fit { length news.old ≡ length (proxies_here graph.now) }
    requires items_are { All P.Red.Item.IsValue items.old }
    ensures brings { (start : List P.Red.Item) (first : List Bool) (before : P.Shown → ℕ → P.Red.Item)
        → Begins P.Red.Item.IsValue P.Red.reducer (length (masters_here graph.now)) (length (proxies_here graph.now)) start first
        → Brings P.Red.Item.IsValue P.Red.reducer (length (masters_here graph.now)) (length (proxies_here graph.now)) before start first items.old news.old
        → Brings P.Red.Item.IsValue P.Red.reducer (length (masters_here graph.now)) (length (proxies_here graph.now))
        (λ none l. P.Red.reducer.combine (before none l) (brought_by P.Red.reducer (P.steps program.now) y (heads_from way graph.now tail) l))
        start first items.new news.new }
    ensures items_fit { length items.new ≡ length items.old }
    ensures news_fit { length news.new ≡ length news.old }
    ensures are_items { All P.Red.Item.IsValue items.new }
{
    let masters = graph.masters();
    let arcs = graph.arcs(way);
    match arcs.runs_of(tail) {
        Some((run, next_run)) => {
            push_run(program, masters, y, run, items, news);
            push_run(program, masters, y, next_run, items, news);
        }
        None => push_found(program, graph, way, tail, y, items, news),
    }
}

/// The same where arcs that the way takes do not lie side by side. A graph that is made for its way never
/// comes here, so this stays out of the loop over tails.
#[inline(never)]
fn push_found<P: VertexProgram>(
    program: &P,
    graph: &LocalGraph,
    way: Way,
    tail: u32,
    y: P::Shown,
    items: &mut [<P::Red as Reduction>::Item],
    news: &mut UpdateBits,
)
    requires is_share { IsShare graph.now }
    requires known { tail < length (proxies_here graph.now) }
    requires is_shown { P.Shown.IsValue y }
    requires items_fit { length items.old ≡ length (proxies_here graph.now) }
    requires news_fit { length news.old ≡ length (proxies_here graph.now) }
    requires items_are { All P.Red.Item.IsValue items.old }
    ensures brings { (start : List P.Red.Item) (first : List Bool) (before : P.Shown → ℕ → P.Red.Item)
        → Begins P.Red.Item.IsValue P.Red.reducer (length (masters_here graph.now)) (length (proxies_here graph.now)) start first
        → Brings P.Red.Item.IsValue P.Red.reducer (length (masters_here graph.now)) (length (proxies_here graph.now)) before start first items.old news.old
        → Brings P.Red.Item.IsValue P.Red.reducer (length (masters_here graph.now)) (length (proxies_here graph.now))
        (λ none l. P.Red.reducer.combine (before none l) (brought_by P.Red.reducer (P.steps program.now) y (heads_from way graph.now tail) l))
        start first items.new news.new }
    ensures items_fit { length items.new ≡ length items.old }
    ensures news_fit { length news.new ≡ length news.old }
    ensures are_items { All P.Red.Item.IsValue items.new }
{
    let masters = graph.masters();
    let arcs = graph.arcs(way);
    push_heads(program, masters, y, arcs.heads_of(tail), items, news);
}

/// Combines the items along the arcs of one run, whose tail shows `y`, into the items of their heads, which
/// are below the number of items.
fn push_run<P: VertexProgram>(
    program: &P,
    masters: u32,
    y: P::Shown,
    run: Run<'_>,
    items: &mut [<P::Red as Reduction>::Item],
    news: &mut UpdateBits,
)
    requires is_shown { P.Shown.IsValue y }
    requires are_lent { All (IsLent (length items.old)) run }
    requires news_fit { length news.old ≡ length items.old }
    requires items_are { All P.Red.Item.IsValue items.old }
    ensures brings { (start : List P.Red.Item) (first : List Bool) (before : P.Shown → ℕ → P.Red.Item)
        → Begins P.Red.Item.IsValue P.Red.reducer masters (length items.old) start first
        → Brings P.Red.Item.IsValue P.Red.reducer masters (length items.old) before start first items.old news.old
        → Brings P.Red.Item.IsValue P.Red.reducer masters (length items.old)
        (λ none l. P.Red.reducer.combine (before none l) (brought_by P.Red.reducer (P.steps program.now) y run.entry l))
        start first items.new news.new }
    ensures items_fit { length items.new ≡ length items.old }
    ensures news_fit { length news.new ≡ length news.old }
    ensures are_items { All P.Red.Item.IsValue items.new }
{
    for (head, weight) in run {
        combine_into::<P::Red>(masters, head, program.along(y, weight), items, news);
    }
}

/// The same where arcs do not lie side by side.
fn push_heads<P: VertexProgram>(
    program: &P,
    masters: u32,
    y: P::Shown,
    heads: Heads<'_>,
    items: &mut [<P::Red as Reduction>::Item],
    news: &mut UpdateBits,
)
    requires is_shown { P.Shown.IsValue y }
    requires are_lent { All (IsLent (length items.old)) heads }
    requires news_fit { length news.old ≡ length items.old }
    requires items_are { All P.Red.Item.IsValue items.old }
    ensures brings { (start : List P.Red.Item) (first : List Bool) (before : P.Shown → ℕ → P.Red.Item)
        → Begins P.Red.Item.IsValue P.Red.reducer masters (length items.old) start first
        → Brings P.Red.Item.IsValue P.Red.reducer masters (length items.old) before start first items.old news.old
        → Brings P.Red.Item.IsValue P.Red.reducer masters (length items.old)
        (λ none l. P.Red.reducer.combine (before none l) (brought_by P.Red.reducer (P.steps program.now) y heads.entry l))
        start first items.new news.new }
    ensures items_fit { length items.new ≡ length items.old }
    ensures news_fit { length news.new ≡ length news.old }
    ensures are_items { All P.Red.Item.IsValue items.new }
{
    for (head, weight) in heads {
        let item = program.along(y, weight);
        combine_into::<P::Red>(masters, head, item, items, news);
    }
}

/// Combines an item into that of the proxy `head`, which gets into the set of those that have news where
/// its item changed. An item that changes nothing writes nothing, and the identity is not even compared
/// with the proxy's item.
fn combine_into<R: Reduction>(
    masters: u32,
    head: u32,
    item: R::Item,
    items: &mut [R::Item],
    news: &mut UpdateBits,
)
    requires has_item { head < length items.old }
    requires has_bit { head < length news.old }
    requires items_are { All R.Item.IsValue items.old }
    requires is_item { R.Item.IsValue item }
    ensures items { (d : R.Item) → items.new ≡ slice_set items.old head (R.reducer.combine (slice_index_or items.old head d) item) }
    ensures news { (d : R.Item) → news.new ≡ slice_set news.old head
        (has_news R.reducer (nat_lt head masters) (has_member news.old head) (slice_index_or items.old head d) (R.reducer.combine (slice_index_or items.old head d) item)) }
{
    if item == R::identity() {
        return;
    }
    let old = items[head as usize];
    let new = R::combine(old, item);
    if new == old {
        return;
    }
    items[head as usize] = new;
    if R::KEEPS || head < masters || new != R::identity() {
        news.set(head);
    } else {
        news.clear(head);
    }
}
