//! Laws of the masters that rules give. Each function does nothing: its contract is the law.
ghost use Rattle.cusp_rules.specs.Laws.{RulesAssign};

/// By each rule every vertex has one master, which is a host, and a host's vertices lie side by side.
pub fn rules_assign()
    ensures { RulesAssign }
{}
