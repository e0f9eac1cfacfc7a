ghost use Rattle.wcp_model.specs.ClockLaws.{ClockLaw, StatesHaveClocks};

/// The clock law: the clocks of two states of different processes tell, by one comparison, whether
/// the one happened before the other.
pub fn clock_law()
    ensures { ClockLaw }
{}

/// Each state has a clock.
pub fn states_have_clocks()
    ensures { StatesHaveClocks }
{}
