ghost use Rattle.wcp_model.specs.FirstReason.{FirstReasonLaw};

/// The first-reason law: of reasons that have tests, the first whose test holds is the one that holds
/// while none before it does.
pub fn first_reason_law<R>()
    ensures { FirstReasonLaw R }
{}
