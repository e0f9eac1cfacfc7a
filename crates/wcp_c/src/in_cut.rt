//! The members of a cut.
ghost use Rattle.std.specs.Prelude.{ℕ, IfSome, IsNone};
ghost use Rattle.wcp_c.specs.Checkers.{IsInCut};

use wcp_model::Report;

/// The interval of process `p` in a cut that was found.
pub fn member_of(report: &Report, p: u32) -> Option<u32>
    ensures some { IfSome result (λ k. IsInCut report.now p k) }
    ensures none { IsNone result → (k : ℕ) → IsInCut report.now p k → ⊥ }
{
    match report {
        Report::Found(cut) if p < cut.len() => cut.get(p),
        _ => None,
    }
}
