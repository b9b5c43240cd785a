//! Reads a payload.
ghost use Rattle.std.specs.Prelude.{◌≡◌, ◌<◌, ◌≤◌, ℕ, Bool, List, length, IfOk};
ghost use Rattle.std.specs.List.Sorted.{IsStrictlyIncreasing};
ghost use Rattle.field_encodings.specs.Checks.{checked};
ghost use Rattle.field_encodings.specs.EntryOrder.{AreEntries};
ghost use Rattle.field_encodings.specs.Forms.{IsForm, IsWellFormed, entries};

use crate::decode_fault::DecodeFault;
use crate::entries::Entries;
use crate::readers::{read_all, read_bits, read_ids, read_positions};
use graph_model::MAX_NODES;
use reduce_laws::Word;

/// What follows the tag is read as the form of that tag.
#[tactic(auto, unfolding(crate::specs::Checks::checked))]
fn read_payload<'a, W: Word>(bytes: &'a [u8], ids: &'a [u32]) -> Result<Entries<'a, W>, DecodeFault>
    requires rising { IsStrictlyIncreasing ids.now }
    requires short { length ids.now ≤ MAX_NODES }
    ensures { result ≡ checked W.WIDTH W.value_of ids.now bytes.now }
{
    let Some((tag, text)) = bytes.split_first() else {
        return Err(DecodeFault::Empty);
    };
    match *tag {
        0 => read_all(text, ids.len() as u32),
        1 => read_bits(text, ids.len() as u32),
        2 => read_positions(text, ids.len() as u32),
        3 => read_ids(text, ids),
        tag => Err(DecodeFault::Tag(tag)),
    }
}

/// The entries of a payload for a list with these global ids, or the first check that it fails.
///
/// Any form is accepted, also one that is not the shortest, and any bytes as values. The entries lend
/// the payload; nothing is copied.
pub fn decode<'a, W: Word>(bytes: &'a [u8], ids: &'a [u32]) -> Result<Entries<'a, W>, DecodeFault>
    requires rising { IsStrictlyIncreasing ids.now }
    requires short { length ids.now ≤ MAX_NODES }

    // What is accepted is a form, and these are its entries.
    ensures form { IfOk result (IsWellFormed W.IsValue W.bytes_of ids.now bytes.now) }
    // Each form is accepted.
    ensures all_forms { (tag : ℕ) (marks : List Bool) (values : List W)
        → IsForm W.IsValue W.bytes_of ids.now bytes.now tag marks values → result ≡ Ok (entries tag marks values) }
    // Positions are below the length of the list and rise, and the values are values of words.
    ensures order { IfOk result (AreEntries W.IsValue (length ids.now)) }
    // A fault is the first check that fails.
    ensures checks { result ≡ checked W.WIDTH W.value_of ids.now bytes.now }
{
    read_payload(bytes, ids)
}

#[cfg(test)]
mod tests {
    use super::*;
    use std::test::Fail;

    // The fault of a payload of four-byte values for the ids 10, 20 and 30.
    fn fault_of(bytes: &[u8]) -> Option<DecodeFault> {
        match decode::<u32>(bytes, &[10, 20, 30]) {
            Ok(_) => None,
            Err(fault) => Some(fault),
        }
    }

    #[test]
    fn each_check_names_its_fault(rt: HostRuntime) {
        let table: [(&[u8], DecodeFault); 13] = [
            (&[], DecodeFault::Empty),
            (&[4], DecodeFault::Tag(4)),
            (&[0, 1, 0, 0, 0], DecodeFault::Length { want: 13, got: 5 }),
            (&[1, 8], DecodeFault::PadBits),
            (&[1, 1], DecodeFault::Length { want: 6, got: 2 }),
            (&[2], DecodeFault::Length { want: 2, got: 1 }),
            (&[2, 3], DecodeFault::Width(3)),
            (&[2, 2], DecodeFault::Width(2)),
            (&[2, 1, 3, 7, 0, 0, 0], DecodeFault::PastEnd(3)),
            (
                &[2, 1, 1, 1, 7, 0, 0, 0, 8, 0, 0, 0],
                DecodeFault::NotRising(1),
            ),
            (&[2, 2, 1, 0, 7, 0, 0, 0], DecodeFault::Width(2)),
            (&[3, 11, 0, 0, 0, 7, 0, 0, 0], DecodeFault::UnknownId(11)),
            (&[3, 10, 0], DecodeFault::Length { want: 1, got: 3 }),
        ];
        for (bytes, fault) in table {
            assert_eq!(rt; fault_of(bytes), Some(fault), "of {bytes:?}");
        }
    }

    #[test]
    fn payloads_give_their_entries(rt: HostRuntime) -> Result<(), Fail> {
        let table: [(&[u8], &[(u32, u32)]); 6] = [
            (&[3], &[]),
            (&[2, 1], &[]),
            (&[3, 20, 0, 0, 0, 7, 0, 0, 0], &[(1, 7)]),
            (
                &[0, 1, 0, 0, 0, 2, 0, 0, 0, 3, 0, 0, 0],
                &[(0, 1), (1, 2), (2, 3)],
            ),
            (&[1, 5, 7, 0, 0, 0, 8, 0, 0, 0], &[(0, 7), (2, 8)]),
            (&[2, 1, 2, 9, 0, 0, 0], &[(2, 9)]),
        ];
        for (bytes, want) in table {
            let entries = decode::<u32>(bytes, &[10, 20, 30])?;
            let found: Vec<(u32, u32)> = entries.collect(rt.alloc())?;
            assert_eq!(rt; found.as_slice(), want, "of {bytes:?}");
        }
        crate::form_laws::<u32>();
        Ok(())
    }
}
