//! The entries of a payload, read from it one after another.
ghost use Rattle.std.specs.Prelude.{◌≡◌, ◌≤◌, ◌*◌, length};
ghost use Rattle.std.specs.Iterator.{YieldsFirst, item_count};

use crate::places::{Places, next_position};
use reduce_laws::Word;
use std::marker::{Model, PhantomData};

/// The entries of a payload that are still to come: updated positions of the list, rising, each with
/// its value. They lend the payload and take no memory.
#[derive(Drop)]
pub struct Entries<'a, W: Word> {
    places: Places<'a>,
    values: &'a [u8],
    word: PhantomData<W>,
}

impl<'a, W: Word> Model for Entries<'a, W> {
    ghost use Rattle.std.specs.Prelude.{ℕ, List, ◌≤◌, ◌*◌, length};
    ghost use Rattle.field_encodings.specs.Checks.{paired};
    ghost use Rattle.field_encodings.specs.Places.{coming, AreReady};

    ghost Value = { List (ℕ × W) };

    ghost view = { λ e. paired W.WIDTH W.value_of (coming e.places) e.values.now };

    ghost invariant = { λ e. AreReady e.places × (length (coming e.places) * W.WIDTH ≤ length e.values.now) };
}

impl<'a, W: Word> Entries<'a, W> {
    ghost use Rattle.field_encodings.specs.Checks.{paired};
    ghost use Rattle.field_encodings.specs.Places.{coming, AreReady};

    /// The entries at these places, with these bytes of values.
    pub(crate) fn new(places: Places<'a>, values: &'a [u8]) -> Self
        requires ready { AreReady places }
        requires enough { length (coming places) * W.WIDTH ≤ length values.now }
        ensures { result ≡ paired W.WIDTH W.value_of (coming places.entry) values.now }
    {
        Entries {
            places,
            values,
            word: PhantomData,
        }
    }
}

impl<'a, W: Word> Iterator for Entries<'a, W> {
    type Item = (u32, W);

    ghost next_gives = { YieldsFirst (λ e. e) };

    ghost remaining = { item_count (λ e. e) };

    #[inline(always)]
    fn next(&mut self) -> Option<(u32, W)> {
        let position = next_position(&mut self.places)?;
        let (value, values) = self.values.split_at(W::WIDTH as usize);
        self.values = values;
        Some((position, W::get(value)))
    }
}
