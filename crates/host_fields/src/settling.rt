//! Masters settle.
ghost use Rattle.std.specs.Prelude.{◌≡◌, ◌<◌, ◌≤◌, ℕ, false, not, length, slice_set};
ghost use Rattle.std.specs.List.{All, slice_index_or};
ghost use Rattle.list_laws.specs.Members.{has_member, no_members};

use reduce_laws::{Reduction, VertexProgram};
use update_bits::UpdateBits;

/// Settles one master with its sum, which is then the identity. It shows what its state then shows, in
/// the next round, and is awake there where that is new; else what it shows stands there already.
fn settle_one<P: VertexProgram>(
    program: &P,
    local: u32,
    shown: &[P::Shown],
    states: &mut [P::State],
    items: &mut [<P::Red as Reduction>::Item],
    next: &mut [P::Shown],
    awake_next: &mut UpdateBits,
)
    requires has_state { local < length states.old }
    requires has_item { local < length items.old }
    requires has_shown { local < length shown.now }
    requires has_next { local < length next.old }
    requires has_bit { local < length awake_next.old }
    requires asleep { has_member awake_next.old local ≡ false }
    requires is_state { (s : P.State) → P.IsState (slice_index_or states.old local s) }
    requires is_item { (d : P.Red.Item) → P.Red.Item.IsValue (slice_index_or items.old local d) }
    requires is_shown { All P.Shown.IsValue shown.now }
    requires quiet { (y : P.Shown) → slice_index_or next.old local y ≡ slice_index_or shown.now local y }
    ensures state { (s : P.State) (d : P.Red.Item) → states.new
        ≡ slice_set states.old local ((P.steps program.now).settle (slice_index_or states.old local s) (slice_index_or items.old local d)) }
    ensures sum { items.new ≡ slice_set items.old local P.Red.reducer.identity }
    ensures shows { (s : P.State) → next.new ≡ slice_set next.old local ((P.steps program.now).shown (slice_index_or states.new local s)) }
    ensures wakes { (y : P.Shown) → awake_next.new
        ≡ slice_set awake_next.old local (not (P.Shown.eq (slice_index_or shown.now local y) (slice_index_or next.new local y))) }
{
    let place = local as usize;
    let state = program.settle(states[place], items[place]);
    let value = program.shown(state);
    states[place] = state;
    items[place] = P::Red::identity();
    if shown[place] != value {
        next[place] = value;
        awake_next.set(local);
    }
}

/// Settles the masters that have news, with their sums, which are then the identity. Each shows what its
/// state then shows, in the next round, and is awake there where that is new. Masters have the local
/// numbers below `masters`. Those without news have the identity for their sum, and no such sum moves
/// them, so they stay as they are. Afterwards none has news.
pub fn settle_news<P: VertexProgram>(
    program: &P,
    masters: u32,
    shown: &[P::Shown],
    states: &mut [P::State],
    items: &mut [<P::Red as Reduction>::Item],
    next: &mut [P::Shown],
    news: &mut UpdateBits,
    awake_next: &mut UpdateBits,
)
    requires states_fit { length states.old ≡ masters }
    requires masters_fit { masters ≤ length shown.now }
    requires items_fit { length items.old ≡ length shown.now }
    requires next_fit { length next.old ≡ length shown.now }
    requires news_fit { length news.old ≡ length shown.now }
    requires awake_fit { length awake_next.old ≡ length shown.now }
    requires states_are { All P.IsState states.old }
    requires items_are { All P.Red.Item.IsValue items.old }
    requires shown_are { All P.Shown.IsValue shown.now }
    requires next_are { All P.Shown.IsValue next.old }
    requires only_masters { (l : ℕ) → masters ≤ l → has_member news.old l ≡ false }
    requires unmoved { (l : ℕ) (s : P.State) (d : P.Red.Item) → l < masters → has_member news.old l ≡ false
        → (slice_index_or items.old l d ≡ P.Red.reducer.identity)
        × ((P.steps program.now).settle (slice_index_or states.old l s) P.Red.reducer.identity ≡ slice_index_or states.old l s) }
    requires states_show { (l : ℕ) (s : P.State) (y : P.Shown) → l < masters
        → slice_index_or next.old l y ≡ (P.steps program.now).shown (slice_index_or states.old l s) }
    requires quiet { (l : ℕ) (y : P.Shown) → l < masters → slice_index_or next.old l y ≡ slice_index_or shown.now l y }
    requires asleep { (l : ℕ) → l < masters → has_member awake_next.old l ≡ false }

    ensures settles { (l : ℕ) (s : P.State) (d : P.Red.Item) → l < masters
        → slice_index_or states.new l s ≡ (P.steps program.now).settle (slice_index_or states.old l s) (slice_index_or items.old l d) }
    ensures sums { (l : ℕ) (d : P.Red.Item) → l < masters → slice_index_or items.new l d ≡ P.Red.reducer.identity }
    ensures shows { (l : ℕ) (s : P.State) (y : P.Shown) → l < masters
        → slice_index_or next.new l y ≡ (P.steps program.now).shown (slice_index_or states.new l s) }
    ensures wakes { (l : ℕ) (y : P.Shown) → l < masters
        → has_member awake_next.new l ≡ not ((P.steps program.now).same (slice_index_or shown.now l y) (slice_index_or next.new l y)) }
    // A settled master is not moved by the identity any more.
    ensures still { (l : ℕ) (s : P.State) → l < masters
        → (P.steps program.now).settle (slice_index_or states.new l s) P.Red.reducer.identity ≡ slice_index_or states.new l s }
    // Mirrors have what they had.
    ensures items_stay { (l : ℕ) (d : P.Red.Item) → masters ≤ l → slice_index_or items.new l d ≡ slice_index_or items.old l d }
    ensures next_stay { (l : ℕ) (y : P.Shown) → masters ≤ l → slice_index_or next.new l y ≡ slice_index_or next.old l y }
    ensures awake_stay { (l : ℕ) → masters ≤ l → has_member awake_next.new l ≡ has_member awake_next.old l }
    ensures no_news { news.new ≡ no_members (length news.old) }
    ensures states_length { length states.new ≡ length states.old }
    ensures items_length { length items.new ≡ length items.old }
    ensures next_length { length next.new ≡ length next.old }
    ensures awake_length { length awake_next.new ≡ length awake_next.old }
    ensures are_states { All P.IsState states.new }
    ensures are_items { All P.Red.Item.IsValue items.new }
    ensures are_shown { All P.Shown.IsValue next.new }
{
    let mut from = 0;
    while let Some(local) = news.next_from(from) {
        settle_one(program, local, shown, states, items, next, awake_next);
        from = local + 1;
    }
    news.clear_all();
}
