//! A set of numbers below a length.
ghost use Rattle.std.specs.Prelude.{◌≡◌, ◌<◌, ◌≤◌, ◌-◌, ◌^◌, ◌&&◌, ℕ, not, nat_le, nat_lt, length, take, drop, slice_get, All, Some, IfOk, IfSome};
ghost use Rattle.update_bits.specs.Members.{IsLastMember};
ghost use Rattle.update_bits.specs.Words.{set_in, AreWords};
ghost use Rattle.list_laws.specs.Members.{
  has_member,
  no_members,
  all_members,
  with_member,
  without_member,
  without_all,
  members,
  members_from,
  count_of,
  IsNextMember,
};

use crate::last_bit::last_bit;
use crate::marks::{clear_marked, mark_word, next_marked};
use crate::spans::clear_bits;
use crate::words::{
    clear_bit, count_bits, fill_bits, ones_between, set_bit, test_bit, word_of_nth, words_for,
};
use std::alloc::{AllocError, Global};
use std::marker::Model;

/// A set of numbers below a length that stays as it was made.
///
/// The marks have one bit for each word. A word with a member has its mark, so a search passes over 64
/// words without one at a time. A word keeps its mark when its last member goes; `clear_all` takes it away.
#[derive(Drop)]
pub struct UpdateBits {
    count: u32,
    words: Vec<u64>,
    marks: Vec<u64>,
}

impl Model for UpdateBits {
    ghost use Rattle.std.specs.Prelude.{Bool, List};
    ghost use Rattle.update_bits.specs.Words.{set_in, AreWords, AreMarks};

    ghost Value = { List Bool };

    ghost view = { λ s. set_in s.count s.words.items };

    ghost invariant = { λ s. AreWords s.count s.words.items × AreMarks s.words.items s.marks.items };
}

impl UpdateBits {
    /// The empty set of numbers below `n`. This is the one call that takes memory.
    pub fn new(alloc: Global, n: u32) -> Result<UpdateBits, AllocError>
        ensures { IfOk result (λ bits. bits ≡ no_members n) }
    {
        let words = words_for(n);
        Ok(UpdateBits {
            count: n,
            words: vec![in alloc; 0; words]?,
            marks: vec![in alloc; 0; words_for(words as u32)]?,
        })
    }

    /// The length: every member is below it.
    pub fn len(&self) -> u32
        ensures { result ≡ length self.now }
    {
        self.count
    }

    /// How many members there are.
    pub fn count(&self) -> u32
        ensures { result ≡ count_of self.now }
    {
        count_bits(&self.words) as u32
    }

    /// How many members there are from `start` up to, but not including, `end`, which is at most the length.
    pub fn count_between(&self, start: u32, end: u32) -> u32
        requires order { start ≤ end }
        requires within { end ≤ length self.now }
        ensures { result ≡ count_of (take (end - start) (drop start self.now)) }
    {
        ones_between(&self.words, start, end) as u32
    }

    /// Whether `i`, a number below the length, is a member.
    pub fn test(&self, i: u32) -> bool
        requires { i < length self.now }
        ensures { result ≡ has_member self.now i }
    {
        test_bit(&self.words, i)
    }

    /// Makes `i`, a number below the length, a member. The other numbers stay as they are.
    pub fn set(&mut self, i: u32)
        requires { i < length self.old }
        ensures { self.new ≡ with_member self.old i }
    {
        mark_word(&self.words, &mut self.marks, i / 64);
        set_bit(&mut self.words, i);
    }

    /// Takes `i`, a number below the length, out of the set. The other numbers stay as they are.
    pub fn clear(&mut self, i: u32)
        requires { i < length self.old }
        ensures { self.new ≡ without_member self.old i }
    {
        clear_bit(&mut self.words, i);
    }

    /// Takes each of these numbers below the length out of the set. The other numbers stay as they are.
    pub fn clear_each(&mut self, numbers: &[u32])
        requires { All (λ i. i < length self.old) numbers.now }
        ensures { self.new ≡ without_all self.old numbers.now }
    {
        for number in numbers {
            self.clear(*number);
        }
    }

    /// Takes every number from `start` up to, but not including, `end` out of the set. The other numbers stay
    /// as they are. `end` is at most the length.
    pub fn clear_between(&mut self, start: u32, end: u32)
        requires order { start ≤ end }
        requires within { end ≤ length self.old }
        ensures length { length self.new ≡ length self.old }
        ensures members { (l : ℕ) → has_member self.new l
            ≡ (has_member self.old l && not (nat_le start l && nat_lt l end)) }
    {
        clear_bits(&mut self.words, start, end);
    }

    /// Makes each number below the length a member.
    pub fn set_all(&mut self)
        ensures { self.new ≡ all_members (length self.old) }
    {
        fill_bits(&mut self.words, self.count);
        fill_bits(&mut self.marks, self.words.len() as u32);
    }

    /// Takes every number out of the set.
    pub fn clear_all(&mut self)
        ensures { self.new ≡ no_members (length self.old) }
    {
        clear_marked(&mut self.words, &mut self.marks);
    }

    /// The least member that is at least `i`, and None exactly where there is none. `i` is at most
    /// the length.
    #[inline(always)]
    pub fn next_from(&self, i: u32) -> Option<u32>
        requires { i ≤ length self.now }
        ensures next { IsNextMember self.now i result }
        ensures below { IfSome result (λ m. m < length self.now) }
    {
        next_marked(&self.words, &self.marks, i)
    }

    /// The greatest member below `end`, and None exactly where there is none. `end` is at most the length.
    pub fn last_before(&self, end: u32) -> Option<u32>
        requires { end ≤ length self.now }
        ensures { IsLastMember self.now end result }
    {
        last_bit(&self.words, end)
    }

    /// The member at `place`, counted from 0 among the members by rising number. `place` is below their count.
    pub fn nth(&self, place: u32) -> u32
        requires { place < count_of self.now }
        ensures { slice_get (members self.now) place ≡ Some result }
    {
        let (word, left) = word_of_nth(&self.words, place);
        self.nth_since(word * 64, left)
    }

    /// The words that hold the set.
    pub(crate) fn words(&self) -> &[u64]
        ensures words { AreWords (length self.now) result.now }
        ensures set { set_in (length self.now) result.now ≡ self.now }
    {
        &self.words
    }

    /// The member at `place`, counted from 0 among those that are at least `start`.
    fn nth_since(&self, start: u32, place: u32) -> u32
        requires short { length self.now < 2 ^ 32 }
        requires start { start ≤ length self.now }
        requires place { place < length (members_from start (drop start self.now)) }
        ensures { slice_get (members_from start (drop start self.now)) place ≡ Some result }
    {
        let mut from = start;
        for _passed in 0..place {
            match self.next_from(from) {
                Some(member) => from = member + 1,
                None => unreachable!(),
            }
        }
        match self.next_from(from) {
            Some(member) => member,
            None => unreachable!(),
        }
    }
}

#[cfg(test)]
mod tests {
    use super::*;
    use std::test::Fail;

    #[test]
    fn members_come_and_go_and_are_found_rising(rt: HostRuntime) -> Result<(), Fail> {
        let mut bits = UpdateBits::new(rt.alloc(), 5)?;
        assert_eq!(rt; (bits.len(), bits.count(), bits.next_from(0)), (5, 0, None));
        bits.set(1);
        bits.set(4);
        assert_eq!(rt;
            (bits.count(), bits.test(1), bits.test(2)),
            (2, true, false)
        );
        assert_eq!(rt; bits.count(), 2);
        assert_eq!(rt; (bits.nth(0), bits.nth(1)), (1, 4));
        for (start, want) in [
            (0, Some(1)),
            (1, Some(1)),
            (2, Some(4)),
            (4, Some(4)),
            (5, None),
        ] {
            assert!(rt; start <= bits.len());
            assert_eq!(rt; bits.next_from(start), want, "from {start}");
        }
        bits.clear(1);
        assert_eq!(rt; (bits.count(), bits.next_from(0)), (1, Some(4)));
        bits.set_all();
        assert_eq!(rt; (bits.count(), bits.next_from(5)), (5, None));
        bits.clear_between(1, 3);
        assert_eq!(rt; (bits.count(), bits.next_from(1)), (3, Some(3)));
        bits.clear_all();
        assert_eq!(rt; (bits.len(), bits.count(), bits.next_from(0)), (5, 0, None));
        Ok(())
    }

    #[test]
    fn members_between_are_counted_and_the_last_is_found(rt: HostRuntime) -> Result<(), Fail> {
        let mut bits = UpdateBits::new(rt.alloc(), 200)?;
        assert_eq!(rt;
            (bits.count_between(0, 200), bits.last_before(200)),
            (0, None)
        );
        for member in [1, 63, 64, 130, 199] {
            assert!(rt; member < bits.len());
            bits.set(member);
        }
        for (start, end, want) in [
            (0, 0, 0),
            (0, 2, 1),
            (2, 63, 0),
            (63, 65, 2),
            (64, 128, 1),
            (65, 130, 0),
            (130, 131, 1),
            (1, 199, 4),
            (0, 200, 5),
            (200, 200, 0),
        ] {
            assert!(rt; start <= end);
            assert!(rt; end <= bits.len());
            assert_eq!(rt;
                bits.count_between(start, end),
                want,
                "from {start} to {end}"
            );
        }
        for (end, want) in [
            (0, None),
            (1, None),
            (2, Some(1)),
            (63, Some(1)),
            (64, Some(63)),
            (65, Some(64)),
            (128, Some(64)),
            (130, Some(64)),
            (131, Some(130)),
            (200, Some(199)),
        ] {
            assert!(rt; end <= bits.len());
            assert_eq!(rt; bits.last_before(end), want, "before {end}");
        }
        Ok(())
    }

    #[test]
    fn few_members_of_a_large_set_are_found(rt: HostRuntime) -> Result<(), Fail> {
        let mut bits = UpdateBits::new(rt.alloc(), 20_000)?;
        bits.set(70);
        bits.set(19_999);
        assert_eq!(rt;
            (bits.next_from(0), bits.next_from(71)),
            (Some(70), Some(19_999))
        );
        bits.clear_between(60, 19_999);
        assert_eq!(rt; (bits.count(), bits.next_from(0)), (1, Some(19_999)));
        bits.clear_all();
        assert_eq!(rt; bits.next_from(0), None);
        Ok(())
    }

    #[test]
    fn lengths_around_words_are_full_and_empty(rt: HostRuntime) -> Result<(), Fail> {
        for length in [0, 1, 63, 64, 65, 128] {
            let mut bits = UpdateBits::new(rt.alloc(), length)?;
            bits.set_all();
            assert_eq!(rt; bits.len(), length);
            assert_eq!(rt;
                (bits.count(), bits.next_from(length)),
                (length, None),
                "length {length}"
            );
            let last = length.checked_sub(1);
            assert_eq!(rt;
                (bits.count_between(0, length), bits.last_before(length)),
                (length, last),
                "length {length}"
            );
            if let Some(last) = last {
                assert!(rt; last < bits.count());
                assert_eq!(rt; bits.nth(last), last, "length {length}");
                for number in 0..last {
                    assert!(rt; number < bits.len());
                    bits.clear_each(&[number]);
                }
            }
            assert_eq!(rt; bits.next_from(0), last, "length {length}");
        }
        Ok(())
    }
}
