ghost use Rattle.wcp_model.specs.Growth.{EarlyFindLaw, GrowthLaw};

/// The growth law: where the replies are those of the definitions, more steps add no order between
/// states that exist, and the emissions of each process grow at their end alone.
pub fn growth_law()
    ensures { GrowthLaw }
{}

/// The early-find law: the least cut of a computation is the least cut of each longer one, so a cut
/// that is found early stays the one.
pub fn early_find_law()
    ensures { EarlyFindLaw }
{}
