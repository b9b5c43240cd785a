//! The bits of words of 64 bits.
ghost use Rattle.std.specs.Prelude.{◌≡◌, ◌≢◌, ℕ, ◌+◌, ◌*◌, ◌/◌, ◌<◌, ◌≤◌, ◌^◌, true, false, length, take, sum_by, count_by, count_ones, nat_lt, IfOk};
ghost use Rattle.list_laws.specs.Bits.{unpacked, bit_in};
ghost use Rattle.list_laws.specs.Members.{count_of};
ghost use Rattle.update_bits.specs.Words.{IsNextBit, IsNextInWord, AreCountsBefore};

use std::alloc::{AllocError, Global};

/// How many words hold a bit for each of `count` numbers.
pub(crate) fn words_for(count: u32) -> usize
    ensures { result ≡ (count + 63) / 64 }
{
    count.div_ceil(64) as usize
}

/// Whether bit `i` is set.
pub(crate) fn test_bit(words: &[u64], i: u32) -> bool
    requires { i / 64 < length words.now }
    ensures { result ≡ bit_in words.now i }
{
    (words[(i / 64) as usize] >> (i % 64)) & 1 == 1
}

/// Sets bit `i`.
pub(crate) fn set_bit(words: &mut [u64], i: u32)
    requires { i / 64 < length words.old }
    ensures set { bit_in words.new i ≡ true }
    ensures others { (k : ℕ) → k ≢ i → bit_in words.new k ≡ bit_in words.old k }
{
    words[(i / 64) as usize] |= 1 << (i % 64);
}

/// Clears bit `i`.
pub(crate) fn clear_bit(words: &mut [u64], i: u32)
    requires { i / 64 < length words.old }
    ensures cleared { bit_in words.new i ≡ false }
    ensures others { (k : ℕ) → k ≢ i → bit_in words.new k ≡ bit_in words.old k }
{
    words[(i / 64) as usize] &= !(1 << (i % 64));
}

/// Sets the first `count` bits and clears the others.
pub(crate) fn fill_bits(words: &mut [u64], count: u32)
    requires { length words.old ≡ (count + 63) / 64 }
    ensures { (k : ℕ) → bit_in words.new k ≡ nat_lt k count }
{
    words.fill(u64::MAX);
    let last = count % 64;
    if last != 0 {
        words[(count / 64) as usize] = (1 << last) - 1;
    }
}

/// The sum of the bits that are set in each word.
fn sum_ones(words: &[u64]) -> u64
    requires { length words.now ≤ 2 ^ 26 }
    ensures { result ≡ sum_by count_ones words.now }
{
    words.iter().map(|word| word.count_ones() as u64).sum()
}

/// How many bits are set.
pub(crate) fn count_bits(words: &[u64]) -> u64
    requires { length words.now ≤ 2 ^ 26 }
    ensures { result ≡ count_by (λ b. b) (unpacked 64 words.now) }
{
    sum_ones(words)
}

/// How many bits of the word of bit `i` are set below it.
pub(crate) fn ones_below(words: &[u64], i: u32) -> u32
    requires { i / 64 < length words.now }
    ensures { let bits = unpacked 64 words.now in count_of (take (i / 64 * 64) bits) + result ≡ count_of (take i bits) }
{
    (words[(i / 64) as usize] & ((1 << (i % 64)) - 1)).count_ones()
}

/// How many bits are set from the first of the word of bit `i` up to bit `i`, which may stand at the end.
fn ones_up_to(words: &[u64], i: u32) -> u32
    requires { i ≤ length words.now * 64 }
    ensures { let bits = unpacked 64 words.now in count_of (take (i / 64 * 64) bits) + result ≡ count_of (take i bits) }
{
    if i % 64 == 0 {
        return 0;
    }
    ones_below(words, i)
}

/// How many bits are set in the words from `first` up to, but not including, `last`.
fn ones_of_words(words: &[u64], first: u32, last: u32) -> u64
    requires order { first ≤ last }
    requires within { last ≤ length words.now }
    requires short { length words.now ≤ 2 ^ 26 }
    ensures { let bits = unpacked 64 words.now in count_of (take (first * 64) bits) + result ≡ count_of (take (last * 64) bits) }
{
    sum_ones(&words[first as usize..last as usize])
}

/// How many bits are set from bit `start` up to, but not including, bit `end`.
pub(crate) fn ones_between(words: &[u64], start: u32, end: u32) -> u64
    requires order { start ≤ end }
    requires within { end ≤ length words.now * 64 }
    requires short { length words.now ≤ 2 ^ 26 }
    ensures { let bits = unpacked 64 words.now in count_of (take start bits) + result ≡ count_of (take end bits) }
{
    let whole = ones_of_words(words, start / 64, end / 64);
    whole + ones_up_to(words, end) as u64 - ones_up_to(words, start) as u64
}

/// For each word, how many bits are set in the words before it.
pub(crate) fn ones_before(alloc: Global, words: &[u64]) -> Result<Vec<u32>, AllocError>
    requires { count_of (unpacked 64 words.now) < 2 ^ 32 }
    ensures { IfOk result (λ before. AreCountsBefore (unpacked 64 words.now) before.items) }
{
    let mut before = Vec::with_capacity(alloc, words.len())?;
    let mut passed = 0;
    for word in words {
        before.push(passed)?;
        passed += word.count_ones();
    }
    Ok(before)
}

/// The first bit of its own word that is set, from bit `i` on.
pub(crate) fn next_in_word(words: &[u64], i: u32) -> Option<u32>
    requires { i / 64 < length words.now }
    ensures { IsNextInWord words.now i result }
{
    let rest = words[(i / 64) as usize] >> (i % 64);
    if rest == 0 {
        return None;
    }
    Some(i + rest.trailing_zeros())
}

/// The first bit that is set, from bit `i` on.
pub(crate) fn next_bit(words: &[u64], i: u32) -> Option<u32>
    requires { length words.now ≤ 2 ^ 26 }
    ensures { IsNextBit words.now i result }
{
    let place = (i / 64) as usize;
    if place >= words.len() {
        return None;
    }
    if let Some(next) = next_in_word(words, i) {
        return Some(next);
    }
    for later in place + 1..words.len() {
        if words[later] != 0 {
            return Some(later as u32 * 64 + words[later].trailing_zeros());
        }
    }
    None
}

/// The number of the word in which the bit stands that is at `place`, counted from 0 among those that are
/// set, and how many of these come before it in that word.
pub(crate) fn word_of_nth(words: &[u64], place: u32) -> (u32, u32)
    requires short { length words.now ≤ 2 ^ 26 }
    requires within { place < count_by (λ b. b) (unpacked 64 words.now) }
    ensures word { result.0 < length words.now }
    ensures before { count_by (λ b. b) (unpacked 64 (take result.0 words.now)) + result.1 ≡ place }
{
    let mut left = place;
    for (number, word) in words.iter().enumerate() {
        let ones = word.count_ones();
        if left < ones {
            return (number as u32, left);
        }
        left -= ones;
    }
    unreachable!()
}
