//! Bits in a row, which are cleared word by word.
ghost use Rattle.std.specs.Prelude.{◌≡◌, ◌+◌, ◌-◌, ◌*◌, ◌/◌, ◌<◌, ◌≤◌, length};
ghost use Rattle.update_bits.specs.Words.{AreClearedBetween};

/// Clears each bit of the words from `first` up to, but not including, `last`.
pub(crate) fn clear_words(words: &mut [u64], first: usize, last: usize)
    requires order { first ≤ last }
    requires within { last ≤ length words.old }
    ensures { AreClearedBetween words.old words.new (first * 64) (last * 64) }
{
    words[first..last].fill(0);
}

/// Clears the bits from `start` up to, but not including, `end`, which all stand in one word.
fn clear_in_word(words: &mut [u64], start: u32, end: u32)
    requires some { start < end }
    requires one_word { start / 64 ≡ (end - 1) / 64 }
    requires within { start / 64 < length words.old }
    ensures { AreClearedBetween words.old words.new start end }
{
    let before = (1 << (start % 64)) - 1;
    let through = u64::MAX >> (63 - (end - 1) % 64);
    words[(start / 64) as usize] &= before | !through;
}

/// Clears the bits from `start` up to, but not including, `end`.
pub(crate) fn clear_bits(words: &mut [u64], start: u32, end: u32)
    requires order { start ≤ end }
    requires within { end ≤ length words.old * 64 }
    ensures { AreClearedBetween words.old words.new start end }
{
    if start == end {
        return;
    }
    let first = start / 64;
    let last = (end - 1) / 64;
    if first == last {
        clear_in_word(words, start, end);
    } else {
        clear_in_word(words, start, (first + 1) * 64);
        clear_words(words, first as usize + 1, last as usize);
        clear_in_word(words, last * 64, end);
    }
}
