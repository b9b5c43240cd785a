//! Laws of runs over hosts. Each function does nothing: its contract is the law.
ghost use Rattle.round_packets.specs.Laws.{KeptIsNoNews, GivenSettles, EntriesAreCarried, AgreeingHaveSameBytes, UntoldIsUnchanged, ReducesAreForms, BroadcastsAreForms};

use reduce_laws::{VertexProgram, Word};

/// Where items are kept, what a mirror keeps does not move its master.
pub fn kept_is_no_news<P: VertexProgram>()
    ensures { KeptIsNoNews P.Red.Item.IsValue P.Shown.IsValue P.IsState }
{}

/// What a master is given settles it as the round of the whole graph does.
pub fn given_settles<P: VertexProgram>()
    ensures { GivenSettles P.Red.Item.IsValue P.Shown.IsValue P.IsState }
{}

/// The entries of the form that is sent are those of the vertices that a packet carries.
pub fn entries_are_carried<W: Word>()
    ensures { EntriesAreCarried W }
{}

/// Packets that agree on their list, on what is updated and on all values have the same bytes.
pub fn agreeing_have_same_bytes<W: Word>()
    ensures { AgreeingHaveSameBytes W }
{}

/// A vertex that is listed for a broadcast and not carried by it shows what it showed before.
pub fn untold_is_unchanged<P: VertexProgram>()
    ensures { UntoldIsUnchanged P.Red.Item.IsValue P.Shown.IsValue P.IsState }
{}

/// What is sent of the packets of a round is well formed for their lists.
pub fn packets_are_forms<P: VertexProgram>()
    ensures reduces { ReducesAreForms P.Red.Item.IsValue P.Shown.IsValue P.IsState P.Red.Item.bytes_of }
    ensures broadcasts { BroadcastsAreForms P.Red.Item.IsValue P.Shown.IsValue P.IsState P.Shown.bytes_of }
{}
