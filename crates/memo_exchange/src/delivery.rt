//! Delivers one payload.
ghost use Rattle.std.specs.Prelude.{OnOk};
ghost use Rattle.memo_exchange.specs.Delivery.{CanDeliver, Delivers};

use crate::letter::Letter;
use address_memo::{Memo, MemoFault, read_memo};
use proxy_graph::LocalGraph;
use std::alloc::{AllocError, Global};

/// The host to which a letter goes reads it, and accepts its lists.
pub(crate) fn deliver(
    alloc: Global,
    graphs: &[LocalGraph],
    memos: &mut [Memo],
    letter: &Letter,
) -> Result<(), AllocError>
    requires { CanDeliver graphs.now memos.old letter.now }
    ensures { OnOk result (Delivers graphs.now memos.old memos.new letter.now) }
{
    let place = letter.to() as usize;
    match read_memo(alloc, &graphs[place], letter.bytes()) {
        Ok(lists) => {
            memos[place].accept(letter.from(), lists);
            Ok(())
        }
        Err(MemoFault::Memory) => Err(AllocError),
        // Each letter is a payload of masters.
        Err(_) => unreachable!(),
    }
}
