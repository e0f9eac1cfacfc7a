ghost use Rattle.wcp_model.specs.WorkloadComputation.{FitOrderLaw};

/// A workload doesn't say in which order its processes take turns, and needn't: every fit order of
/// its tasks gives a computation with the same states, the same order among them, and the same
/// truths.
pub fn fit_order_law()
    ensures { FitOrderLaw }
{}
