//! Words whose marks say where bits may be set.
ghost use Rattle.std.specs.Prelude.{◌≡◌, ◌≢◌, ℕ, ◌*◌, ◌<◌, ◌≤◌, ◌^◌, true, false, length, slice_index};
ghost use Rattle.list_laws.specs.Bits.{bit_in};
ghost use Rattle.update_bits.specs.Words.{AreMarks, IsNextBit};

use crate::spans::clear_words;
use crate::words::{next_bit, next_in_word, set_bit};

/// The first bit that is set, from bit `i` on. Past the word of `i` only words with a mark are looked at.
pub(crate) fn next_marked(words: &[u64], marks: &[u64], i: u32) -> Option<u32>
    requires short { length words.now ≤ 2 ^ 26 }
    requires marks { AreMarks words.now marks.now }
    ensures { IsNextBit words.now i result }
{
    let place = i / 64;
    if place as usize >= words.len() {
        return None;
    }
    if let Some(next) = next_in_word(words, i) {
        return Some(next);
    }
    next_from_word(words, marks, place + 1)
}

/// The first bit that is set, from the first of word `start` on.
#[inline(never)]
fn next_from_word(words: &[u64], marks: &[u64], start: u32) -> Option<u32>
    requires short { length words.now ≤ 2 ^ 26 }
    requires marks { AreMarks words.now marks.now }
    ensures { IsNextBit words.now (start * 64) result }
{
    let mut from = start;
    while let Some(place) = next_bit(marks, from) {
        let word = words[place as usize];
        if word != 0 {
            return Some(place * 64 + word.trailing_zeros());
        }
        from = place + 1;
    }
    None
}

/// Sets the mark of the word at `place`, which has it already where a bit of the word is set: then nothing is
/// written.
pub(crate) fn mark_word(words: &[u64], marks: &mut [u64], place: u32)
    requires within { place < length words.now }
    requires marks { AreMarks words.now marks.old }
    ensures set { bit_in marks.new place ≡ true }
    ensures others { (k : ℕ) → k ≢ place → bit_in marks.new k ≡ bit_in marks.old k }
{
    if words[place as usize] == 0 {
        set_bit(marks, place);
    }
}

/// Clears every bit of the words and of their marks. Words without a mark are passed over.
pub(crate) fn clear_marked(words: &mut [u64], marks: &mut [u64])
    requires { AreMarks words.old marks.old }
    ensures cleared { (k : ℕ) → bit_in words.new k ≡ false }
    ensures marks { AreMarks words.new marks.new }
{
    for place in 0..marks.len() {
        clear_under(words, marks, place);
    }
}

/// Clears the mark word at `place`, and the words whose marks stand there.
fn clear_under(words: &mut [u64], marks: &mut [u64], place: usize)
    requires within { place < length marks.old }
    requires marks { AreMarks words.old marks.old }
    ensures none { slice_index marks.new place ≡ 0 }
    ensures others { (k : ℕ) → k ≢ place → slice_index marks.new k ≡ slice_index marks.old k }
    ensures marks { AreMarks words.new marks.new }
{
    if marks[place] != 0 {
        let end = words.len().min(place * 64 + 64);
        clear_words(words, place * 64, end);
        marks[place] = 0;
    }
}
