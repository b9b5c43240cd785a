//! The number of a channel.
ghost use Rattle.std.specs.Prelude.{◌<◌, ◌^◌, length, IfSome, IfNone};
ghost use Rattle.packet_table.specs.Order.{Rise, IsChannelAt, HasNoChannel};

use crate::channel_spec::{ChannelSpec, Leg};
use std::cmp::Ordering;

// The place of the channel of `leg` from `from` to `to`, by bisection.
pub fn find_channel(specs: &[ChannelSpec], leg: Leg, from: u16, to: u16) -> Option<u32>
    requires rise { Rise specs.now }
    requires few { length specs.now < 2 ^ 32 }
    ensures found { IfSome result (λ id. IsChannelAt specs.now id leg from to) }
    ensures absent { IfNone result (HasNoChannel specs.now leg from to) }
{
    let mut low = 0;
    let mut high = specs.len();
    while low < high {
        let middle = low + (high - low) / 2;
        match specs[middle].order(leg, from, to) {
            Ordering::Less => low = middle + 1,
            Ordering::Equal => return Some(middle as u32),
            Ordering::Greater => high = middle,
        }
    }
    None
}
