//! The channels between the hosts.
ghost use Rattle.std.specs.Prelude.{◌≡◌, ◌<◌, ◌≤◌, ◌++◌, length, All, IfOk, OnOk};
ghost use Rattle.packet_table.specs.declared.channel_spec.Leg.TheVariants.{Reduce, Spread};
ghost use Rattle.round_driver.specs.ChannelSpecs.{list_to, IsMemoOf, specs_below, specs_of_leg};

use address_memo::{ListKind, Memo};
use packet_table::{ChannelSpec, Leg};
use reduce_laws::Word;
use std::alloc::{AllocError, Global};

/// How many vertices a host's list of a leg to a peer has.
fn list_len(memo: &Memo, leg: Leg, to: u16) -> u64
    requires { to < memo.now.hosts }
    ensures { result ≡ length (list_to memo.now leg to) }
{
    let kind = match leg {
        Leg::Reduce => ListKind::ReduceTo,
        Leg::Spread => ListKind::SpreadTo,
    };
    memo.list(kind, to).globals().len() as u64
}

/// Adds a host's channels of a leg, by rising receiver, where a value has `size` bytes.
fn add_host(
    memo: &Memo,
    leg: Leg,
    size: u64,
    from: u16,
    hosts: u16,
    specs: &mut Vec<ChannelSpec>,
) -> Result<(), AllocError>
    requires memo { IsMemoOf hosts memo.now }
    requires size { size ≤ 8 }
    ensures { OnOk result (specs.new.items ≡ specs.old.items ++ specs_below leg size from memo.now hosts) }
{
    for to in 0..hosts {
        let len = list_len(memo, leg, to);
        if len > 0 {
            let room = 1 + len * size;
            specs.push(ChannelSpec {
                leg,
                from,
                to,
                room,
            })?;
        }
    }
    Ok(())
}

/// Adds all hosts' channels of a leg, by rising sender, where a value has `size` bytes.
fn add_leg(
    memos: &[Memo],
    leg: Leg,
    size: u64,
    specs: &mut Vec<ChannelSpec>,
) -> Result<(), AllocError>
    requires few { length memos.now ≤ 64 }
    requires memos { All (IsMemoOf (length memos.now)) memos.now }
    requires size { size ≤ 8 }
    ensures { OnOk result (specs.new.items ≡ specs.old.items ++ specs_of_leg leg size 0 memos.now) }
{
    let hosts = memos.len() as u16;
    for (from, memo) in memos.iter().enumerate() {
        add_host(memo, leg, size, from as u16, hosts, specs)?;
    }
    Ok(())
}

/// The channels that these memos of all hosts ask for, by leg, sender and receiver: one for each list that
/// is not empty, with room for the form of all its values.
pub(crate) fn channel_specs<I: Word, S: Word>(
    alloc: Global,
    memos: &[Memo],
) -> Result<Vec<ChannelSpec>, AllocError>
    requires few { length memos.now ≤ 64 }
    requires memos { All (IsMemoOf (length memos.now)) memos.now }
    ensures { IfOk result (λ specs. specs.items ≡ specs_of_leg Reduce I.WIDTH 0 memos.now ++ specs_of_leg Spread S.WIDTH 0 memos.now) }
{
    let mut specs = Vec::new(alloc);
    add_leg(memos, Leg::Reduce, I::WIDTH as u64, &mut specs)?;
    add_leg(memos, Leg::Spread, S::WIDTH as u64, &mut specs)?;
    Ok(specs)
}
