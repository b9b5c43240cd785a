//! What three mirrors gather, and what their masters absorb of it.
ghost use Rattle.std.specs.Prelude.{◌≡◌, length, IfOk};

use crate::absorbing::absorb;
use crate::gathering::gather;
use field_encodings::decode;
use reduce_laws::{AddU32, MinU32};
use std::alloc::{AllocError, Global};
use std::test::Fail;
use update_bits::UpdateBits;

// The first and the third of three numbers.
fn first_and_third(alloc: Global) -> Result<UpdateBits, AllocError>
    ensures { IfOk result (λ bits. length bits ≡ 3) }
{
    let mut bits = UpdateBits::new(alloc, 3)?;
    bits.set(0);
    bits.set(2);
    Ok(bits)
}

#[test]
fn sums_are_gathered_and_added(rt: HostRuntime) -> Result<(), Fail> {
    let mut kept = [4, 0, 6];
    let mut bits = first_and_third(rt.alloc())?;
    let mut out = [0xee; 13];
    let coded = gather::<AddU32>(&mut kept, &[0, 1, 2], &[10, 20, 30], &mut bits, &mut out);
    let payload = &out[..coded.len as usize];
    assert_eq!(rt; payload, [1, 5, 4, 0, 0, 0, 6, 0, 0, 0].as_slice());
    assert_eq!(rt; kept, [0, 0, 0]);
    assert_eq!(rt; bits.count(), 0);

    let mut sums = [1, 1, 1];
    let mut touched = UpdateBits::new(rt.alloc(), 3)?;
    let entries = decode::<u32>(payload, &[10, 20, 30])?;
    absorb::<AddU32>(entries, &[0, 1, 2], &mut sums, &mut touched);
    assert_eq!(rt; sums, [5, 1, 7]);
    assert_eq!(rt;
        [touched.test(0), touched.test(1), touched.test(2)],
        [true, false, true]
    );
    Ok(())
}

#[test]
fn the_least_is_gathered_and_kept(rt: HostRuntime) -> Result<(), Fail> {
    let mut kept = [4, 0, 6];
    let mut bits = first_and_third(rt.alloc())?;
    let mut out = [0xee; 13];
    let coded = gather::<MinU32>(&mut kept, &[0, 1, 2], &[10, 20, 30], &mut bits, &mut out);
    let payload = &out[..coded.len as usize];
    assert_eq!(rt; payload, [1, 5, 4, 0, 0, 0, 6, 0, 0, 0].as_slice());
    assert_eq!(rt; kept, [4, 0, 6]);
    assert_eq!(rt; bits.count(), 0);

    let mut sums = [5, 5, 5];
    let mut touched = UpdateBits::new(rt.alloc(), 3)?;
    let entries = decode::<u32>(payload, &[10, 20, 30])?;
    absorb::<MinU32>(entries, &[0, 1, 2], &mut sums, &mut touched);
    assert_eq!(rt; sums, [4, 5, 5]);
    assert_eq!(rt;
        [touched.test(0), touched.test(1), touched.test(2)],
        [true, false, true]
    );
    Ok(())
}
