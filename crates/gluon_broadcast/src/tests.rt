//! What three masters spread, and what their mirrors receive of it.
use crate::receiving::receive;
use crate::spreading::spread;
use field_encodings::decode;
use std::test::Fail;
use update_bits::UpdateBits;

#[test]
fn shown_values_are_spread_and_received(rt: HostRuntime) -> Result<(), Fail> {
    let mut bits = UpdateBits::new(rt.alloc(), 3)?;
    bits.set(0);
    bits.set(2);
    let mut out = [0xee; 13];
    let coded = spread(&[4u32, 0, 6], &[0, 1, 2], &[10, 20, 30], &bits, &mut out);
    let payload = &out[..coded.len as usize];
    assert_eq!(rt; payload, [1, 5, 4, 0, 0, 0, 6, 0, 0, 0].as_slice());

    let shown = [4, 0, 5];
    let mut next = shown;
    let mut awake = UpdateBits::new(rt.alloc(), 3)?;
    let entries = decode::<u32>(payload, &[10, 20, 30])?;
    receive(entries, &[0, 1, 2], &shown, &mut next, &mut awake);
    assert_eq!(rt; next, [4, 0, 6]);
    assert_eq!(rt;
        [awake.test(0), awake.test(1), awake.test(2)],
        [false, false, true]
    );
    Ok(())
}
