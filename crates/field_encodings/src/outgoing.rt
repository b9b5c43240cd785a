//! A list whose updated values are to be written.
ghost use Rattle.std.specs.Prelude.{◌≡◌, ◌≤◌, ◌<◌, length};
ghost use Rattle.list_laws.specs.Members.{members};
ghost use Rattle.field_encodings.specs.Lengths.{greatest_of};
ghost use Rattle.field_encodings.specs.Lists.{marks_at, IsSource};

use reduce_laws::Word;
use update_bits::UpdateBits;

/// A list of proxies with the field and the set that its packet is made from.
#[derive(Drop)]
pub(crate) struct Outgoing<'a, W: Word> {
    /// The field's values, by local number.
    pub(crate) values: &'a [W],
    /// The list's local numbers.
    pub(crate) locals: &'a [u32],
    /// Its global ids.
    pub(crate) ids: &'a [u32],
    /// The local numbers that are updated.
    pub(crate) bits: &'a UpdateBits,
    /// How many positions are updated.
    pub(crate) count: u32,
    /// The greatest of them, and 0 where there is none.
    pub(crate) greatest: u32,
    ghost source: { IsSource values.now locals.now ids.now bits.now },
    ghost counted: { count ≡ length (members (marks_at bits.now locals.now)) },
    ghost few: { count ≤ length locals.now },
    ghost inside: { 0 < count → greatest < length locals.now },
    ghost last: { greatest ≡ greatest_of (members (marks_at bits.now locals.now)) },
}
