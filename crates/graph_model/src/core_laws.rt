//! Laws of peeling and of the core to which it leads. Each function does nothing: its contract is the law.
ghost use Rattle.graph_model.specs.CoreLaws.{PeelingFalls, PeelingStays, StillPeelIsCore, PeelingEnds, LastPeelIsCore, LeavingEndsAtLast, CoreExists, CoreIsUnique, PeelCountIsUnique, PeelingOrderIsFree, PeelCountOrderIsFree, CoreOrderIsFree};

/// Who is left later was left before.
pub fn peeling_falls()
    ensures { PeelingFalls }
{}

/// Once nobody leaves nobody leaves any more.
pub fn peeling_stays()
    ensures { PeelingStays }
{}

/// Where nobody leaves, who is left is the core.
pub fn still_peel_is_core()
    ensures { StillPeelIsCore }
{}

/// Peeling takes at most one round more than there are nodes.
pub fn peeling_ends()
    ensures { PeelingEnds }
{}

/// From the last round of peeling on, who is left is the core.
pub fn last_peel_is_core()
    ensures { LastPeelIsCore }
{}

/// Nobody leaves in the last round of peeling nor in any later one, and in each earlier round somebody does.
pub fn leaving_ends_at_last()
    ensures { LeavingEndsAtLast }
{}

/// A graph has a core of each degree.
pub fn core_exists()
    ensures { CoreExists }
{}

/// A graph has one core of each degree.
pub fn core_is_unique()
    ensures { CoreIsUnique }
{}

/// Peeling takes one number of rounds.
pub fn peel_count_is_unique()
    ensures { PeelCountIsUnique }
{}

/// The order of the arcs makes no difference to peeling.
pub fn peeling_order_is_free()
    ensures { PeelingOrderIsFree }
{}

/// The order of the arcs makes no difference to the number of rounds of peeling.
pub fn peel_count_order_is_free()
    ensures { PeelCountOrderIsFree }
{}

/// The order of the arcs makes no difference to the core.
pub fn core_order_is_free()
    ensures { CoreOrderIsFree }
{}
