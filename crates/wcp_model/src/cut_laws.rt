ghost use Rattle.wcp_model.specs.CutLaws.{LeastCutLaw, MinimumLaw};

/// The minimum law: satisfying cuts are closed under the componentwise minimum.
pub fn minimum_law()
    ensures { MinimumLaw }
{}

/// The least cut law: where there is a satisfying cut, there is a least one.
pub fn least_cut_law()
    ensures { LeastCutLaw }
{}
