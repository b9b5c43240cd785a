//! Packets over small tables of channels.
ghost use Rattle.std.specs.Prelude.{◌≡◌, ◌<◌, ◌^◌, [], ◌∷◌, length, sum, IfOk, vec_len};
ghost use Rattle.list_laws.specs.Members.{no_members};
ghost use Rattle.packet_table.specs.Order.{Rise};
ghost use Rattle.packet_table.specs.Table.{rooms_of};

use crate::{ChannelSpec, Channels, Leg};
use std::alloc::{AllocError, Global};
use std::test::Fail;

// One leg from host 7 to each of the hosts below `count`, with room for three bytes.
fn fan(alloc: Global, count: u16) -> Result<Vec<ChannelSpec>, AllocError>
    ensures rise { IfOk result (λ specs. Rise specs.items) }
    ensures count { IfOk result (λ specs. vec_len specs ≡ count) }
    ensures bounded { IfOk result (λ specs. sum (rooms_of specs.items) < 2 ^ 63) }
{
    let mut specs = Vec::new(alloc);
    for to in 0..count {
        specs.push(ChannelSpec {
            leg: Leg::Spread,
            from: 7,
            to,
            room: 3,
        })?;
    }
    Ok(specs)
}

// Fills each buffer with a byte of its own and posts it whole.
fn post_all(channels: &mut Channels)
    requires { channels.old.flying ≡ no_members (length channels.old.specs) }
{
    for id in 0..channels.count() {
        channels.buffer(id).fill((id % 251) as u8);
        let room = channels.spec(id).room;
        channels.post(id, room);
    }
}

#[test]
fn what_flies_stands_by_rising_number(rt: HostRuntime) -> Result<(), Fail> {
    for count in [0u16, 1, 63, 64, 65, 128] {
        let mut channels = Channels::new(rt.alloc(), fan(rt.alloc(), count)?)?;
        post_all(&mut channels);
        assert_eq!(rt; channels.flying_count(), u32::from(count));
        for place in 0..channels.flying_count() {
            let id = channels.flying(place);
            let byte = (place % 251) as u8;
            assert_eq!(rt;
                (id, channels.payload(id)),
                (place, [byte, byte, byte].as_slice())
            );
        }
        for want in (0..u32::from(count)).rev() {
            assert_eq!(rt; channels.flying_count(), want + 1);
            assert_eq!(rt; channels.take(want), want);
        }
        assert_eq!(rt; channels.flying_count(), 0);
    }
    Ok(())
}

// Two channels of the first leg and two of the second.
fn both_legs(alloc: Global) -> Result<Vec<ChannelSpec>, AllocError>
    ensures rise { IfOk result (λ specs. Rise specs.items) }
    ensures count { IfOk result (λ specs. vec_len specs ≡ 4) }
    ensures rooms { IfOk result (λ specs. rooms_of specs.items ≡ 4 ∷ 0 ∷ 2 ∷ 3 ∷ []) }
{
    let specs = vec![in alloc;
        ChannelSpec {
            leg: Leg::Reduce,
            from: 0,
            to: 1,
            room: 4
        },
        ChannelSpec {
            leg: Leg::Reduce,
            from: 2,
            to: 0,
            room: 0
        },
        ChannelSpec {
            leg: Leg::Spread,
            from: 0,
            to: 2,
            room: 2
        },
        ChannelSpec {
            leg: Leg::Spread,
            from: 1,
            to: 0,
            room: 3
        },
    ]?;
    Ok(specs)
}

#[test]
fn channels_are_found_by_leg_and_hosts(rt: HostRuntime) -> Result<(), Fail> {
    let channels = Channels::new(rt.alloc(), both_legs(rt.alloc())?)?;
    assert_eq!(rt; channels.count(), 4);
    assert_eq!(rt;
        channels.spec(3),
        ChannelSpec {
            leg: Leg::Spread,
            from: 1,
            to: 0,
            room: 3
        }
    );
    for (leg, from, to, want) in [
        (Leg::Reduce, 0, 1, Some(0)),
        (Leg::Reduce, 2, 0, Some(1)),
        (Leg::Spread, 0, 2, Some(2)),
        (Leg::Spread, 1, 0, Some(3)),
        (Leg::Reduce, 0, 2, None),
        (Leg::Reduce, 0, 0, None),
        (Leg::Spread, 1, 1, None),
        (Leg::Spread, 0, 1, None),
    ] {
        assert_eq!(rt; channels.find(leg, from, to), want, "{from} to {to}");
    }
    Ok(())
}

#[test]
fn a_payload_is_what_its_buffer_has(rt: HostRuntime) -> Result<(), Fail> {
    let mut channels = Channels::new(rt.alloc(), both_legs(rt.alloc())?)?;
    assert_eq!(rt; channels.count(), 4);
    channels.buffer(0).fill(5);
    assert!(rt; channels.payload(0).is_empty(), "nothing was posted");
    channels.post(0, 2);
    channels.buffer(3).fill(8);
    channels.post(3, 3);
    assert_eq!(rt; channels.flying_count(), 2);
    assert_eq!(rt; (channels.flying(0), channels.take(0)), (0, 0));
    channels.buffer(0)[1] = 9;
    assert_eq!(rt;
        channels.payload(0),
        [5, 9].as_slice(),
        "the new byte, and no more"
    );
    assert_eq!(rt; channels.payload(3), [8, 8, 8].as_slice());
    assert_eq!(rt; channels.flying_count(), 1);
    assert_eq!(rt; channels.take(0), 3);
    channels.post(0, 4);
    assert_eq!(rt; channels.payload(0), [5, 9, 5, 5].as_slice());
    assert_eq!(rt;
        channels.payload(3),
        [8, 8, 8].as_slice(),
        "taken, and still there"
    );
    Ok(())
}
