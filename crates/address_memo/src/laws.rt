//! Laws of memos. Each function does nothing: its contract is the law.
ghost use Rattle.address_memo.specs.Laws.{MemosFit};

/// A memo fits its graph and way from the start, and still does when it accepts lists of the host's
/// masters, as [`read_memo`](crate::read_memo) gives them.
pub fn memos_fit()
    ensures { MemosFit }
{}
