//! Makes the mirrors of a list ready for the next round.
ghost use Rattle.std.specs.Prelude.{◌≡◌, ◌<◌, ◌≤◌, ◌&&◌, ℕ, nat_le, if◌then◌else◌, length};
ghost use Rattle.std.specs.List.{All, slice_index_or};
ghost use Rattle.std.specs.List.Sorted.{IsStrictlyIncreasing};
ghost use Rattle.list_laws.specs.Among.{is_among};
ghost use Rattle.list_laws.specs.Members.{count_of, without_all};
ghost use Rattle.field_encodings.specs.Lists.{marks_at};

use field_encodings::is_run;
use reduce_laws::Reduction;
use update_bits::UpdateBits;

/// Clears the bits of a list, which rises, and whose packet has so many bytes. A packet of one byte carries
/// nothing, and then no bit of the list is set.
pub(crate) fn clear_sent(len: u64, locals: &[u32], bits: &mut UpdateBits)
    requires rise { IsStrictlyIncreasing locals.now }
    requires has_bits { All (λ local. local < length bits.old) locals.now }
    requires none { len ≤ 1 → count_of (marks_at bits.old locals.now) ≡ 0 }
    ensures { bits.new ≡ without_all bits.old locals.now }
{
    if len > 1 {
        clear_listed(locals, bits);
    }
}

/// Clears the bits of a list, which rises: all at once where its numbers stand in a row.
fn clear_listed(locals: &[u32], bits: &mut UpdateBits)
    requires rise { IsStrictlyIncreasing locals.now }
    requires has_bits { All (λ local. local < length bits.old) locals.now }
    ensures { bits.new ≡ without_all bits.old locals.now }
{
    if is_run(locals) {
        let proxies = bits.len();
        let last = locals[locals.len() - 1];
        prove!(last < proxies);
        bits.clear_between(locals[0], last + 1);
        return;
    }
    bits.clear_each(locals);
}

/// Gives each proxy of a list, which rises, the identity: all at once where its numbers stand in a row.
pub(crate) fn set_back<R: Reduction>(locals: &[u32], kept: &mut [R::Item])
    requires rise { IsStrictlyIncreasing locals.now }
    requires has_items { All (λ local. local < length kept.old) locals.now }
    ensures { (l : ℕ) (d : R.Item) → slice_index_or kept.new l d
        ≡ (if is_among locals.now l then R.reducer.identity else slice_index_or kept.old l d) }
{
    if !is_run(locals) {
        set_back_each::<R>(locals, kept);
        return;
    }
    let proxies = kept.len();
    let last = locals[locals.len() - 1];
    prove!((last as usize) < proxies);
    set_back_row::<R>(locals[0], last, kept);
}

/// Gives the proxies from `first` to `last` the identity.
fn set_back_row<R: Reduction>(first: u32, last: u32, kept: &mut [R::Item])
    requires within { last < length kept.old }
    requires order { first ≤ last }
    ensures { (l : ℕ) (d : R.Item) → slice_index_or kept.new l d
        ≡ (if nat_le first l && nat_le l last then R.reducer.identity else slice_index_or kept.old l d) }
{
    for place in first as usize..last as usize + 1 {
        kept[place] = R::identity();
    }
}

/// Gives each proxy of a list the identity.
fn set_back_each<R: Reduction>(locals: &[u32], kept: &mut [R::Item])
    requires { All (λ local. local < length kept.old) locals.now }
    ensures { (l : ℕ) (d : R.Item) → slice_index_or kept.new l d
        ≡ (if is_among locals.now l then R.reducer.identity else slice_index_or kept.old l d) }
{
    for local in locals {
        kept[*local as usize] = R::identity();
    }
}
