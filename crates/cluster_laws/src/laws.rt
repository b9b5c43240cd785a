//! Laws of a cluster. Each function does nothing: its contract is the law.
ghost use Rattle.cluster_laws.specs.Laws.{FreshStandsBetween, FlightsCarryPackets, ReducesComeInTime, BroadcastsComeInTime, StepKeeps, OverIsEnd, OverIsDone, StepsKeep, OneRound};
ghost use Rattle.cluster_laws.specs.NumberLaws.{ChannelsRise, ChannelsHaveNumbers, NumbersHaveChannels, EventsHaveNumbers, EnabledByNumber, PicksByNumber, BytesByNumber, TableStepIsStep};
ghost use Rattle.cluster_laws.specs.Possible.{EventsHappen, RoundsEnd};
ghost use Rattle.cluster_laws.specs.Posting.{ReducesArePosted, BroadcastsArePosted};

use reduce_laws::VertexProgram;

/// Each event of a cluster comes in time and keeps what the cluster stands for.
pub fn step_laws<P: VertexProgram>()
    ensures fresh { FreshStandsBetween P P.Red.Item.IsValue P.Shown.IsValue P.IsState P.Red.Item.bytes_of P.Shown.bytes_of }
    ensures flights { FlightsCarryPackets P P.Red.Item.IsValue P.Shown.IsValue P.IsState P.Red.Item.bytes_of P.Shown.bytes_of }
    ensures reduces { ReducesComeInTime P P.Red.Item.IsValue P.Shown.IsValue P.IsState P.Red.Item.bytes_of P.Shown.bytes_of }
    ensures broadcasts { BroadcastsComeInTime P P.Red.Item.IsValue P.Shown.IsValue P.IsState P.Red.Item.bytes_of P.Shown.bytes_of }
    ensures step { StepKeeps P P.Red.Item.IsValue P.Shown.IsValue P.IsState P.Red.Item.bytes_of P.Shown.bytes_of }
{}

/// Events do not run out before a round is over.
pub fn end_laws<P: VertexProgram>()
    ensures end { OverIsEnd P P.Red.Item.IsValue P.Shown.IsValue P.IsState P.Red.Item.bytes_of P.Shown.bytes_of }
    ensures done { OverIsDone P P.Red.Item.IsValue P.Shown.IsValue P.IsState P.Red.Item.bytes_of P.Shown.bytes_of }
{}

/// A round takes a cluster from one moment between rounds to the next.
pub fn one_round<P: VertexProgram>()
    ensures steps { StepsKeep P P.Red.Item.IsValue P.Shown.IsValue P.IsState P.Red.Item.bytes_of P.Shown.bytes_of }
    ensures round { OneRound P P.Red.Item.IsValue P.Shown.IsValue P.IsState P.Red.Item.bytes_of P.Shown.bytes_of }
{}

/// Channels and their numbers say the same.
pub fn number_laws()
    ensures rise { ChannelsRise }
    ensures channels { ChannelsHaveNumbers }
    ensures numbers { NumbersHaveChannels }
    ensures events { EventsHaveNumbers }
{}

/// Lists that hold a cluster step as it does.
pub fn table_laws<P: VertexProgram>()
    ensures enabled { EnabledByNumber P P.Red.Item P.State P.Shown }
    ensures picks { PicksByNumber P P.Red.Item P.State P.Shown }
    ensures bytes { BytesByNumber P P.Red.Item P.State P.Shown }
    ensures step { TableStepIsStep P P.State P.Red.Item.bytes_of P.Shown.bytes_of }
{}

/// Events that may come can come, and every round can be brought to its end.
pub fn rounds_end<P: VertexProgram>()
    ensures happen { EventsHappen P P.Red.Item.IsValue P.Shown.IsValue P.IsState P.Red.Item.bytes_of P.Shown.bytes_of }
    ensures end { RoundsEnd P P.Red.Item.IsValue P.Shown.IsValue P.IsState P.Red.Item.bytes_of P.Shown.bytes_of }
{}

/// What a host posts is the round's packet.
pub fn packets_are_posted<P: VertexProgram>()
    ensures reduces { ReducesArePosted P P.Red.Item.IsValue P.Shown.IsValue P.IsState }
    ensures broadcasts { BroadcastsArePosted P P.Red.Item.IsValue P.Shown.IsValue P.IsState }
{}
