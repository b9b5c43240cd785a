//! The last bit that is set below a place.
ghost use Rattle.std.specs.Prelude.{◌*◌, ◌/◌, ◌^◌, ◌<◌, ◌≤◌, length};
ghost use Rattle.update_bits.specs.LastBits.{IsHighestBit, IsLastBit, IsLastInWord};

/// The highest bit of a number that is set.
fn highest_bit(number: u64) -> u32
    requires { 0 < number }
    ensures { IsHighestBit number result }
{
    63 - number.leading_zeros()
}

/// The last bit of the word of bit `i` that is set, below bit `i`.
fn last_in_word(words: &[u64], i: u32) -> Option<u32>
    requires { i / 64 < length words.now }
    ensures { IsLastInWord words.now i result }
{
    let below = words[(i / 64) as usize] & ((1 << (i % 64)) - 1);
    if below == 0 {
        return None;
    }
    Some(i / 64 * 64 + highest_bit(below))
}

/// The last bit that is set in the first `count` words.
fn last_in_words(words: &[u64], count: usize) -> Option<u32>
    requires within { count ≤ length words.now }
    requires short { length words.now ≤ 2 ^ 26 }
    ensures { IsLastBit words.now (count * 64) result }
{
    let mut left = count;
    while left > 0 {
        left -= 1;
        if words[left] != 0 {
            return Some(left as u32 * 64 + highest_bit(words[left]));
        }
    }
    None
}

/// The last bit that is set, below bit `i`. The words are gone through from that of `i` down.
pub(crate) fn last_bit(words: &[u64], i: u32) -> Option<u32>
    requires within { i ≤ length words.now * 64 }
    requires short { length words.now ≤ 2 ^ 26 }
    ensures { IsLastBit words.now i result }
{
    let place = (i / 64) as usize;
    if place == words.len() {
        return last_in_words(words, place);
    }
    if let Some(last) = last_in_word(words, i) {
        return Some(last);
    }
    last_in_words(words, place)
}
