ghost use Rattle.std.specs.Prelude.{◌≡◌};
ghost use Rattle.trace_detect.specs.declared.fault.DetectFault.TheVariants.{Memory};
ghost use Rattle.trace_schedule.specs.declared.ordered_fault.OrderedFault.TheVariants.{Detection};

use std::alloc::AllocError;
use trace_detect::DetectFault;

/// Why there is no schedule.
#[derive(Debug, Drop)]
pub enum OrderedFault {
    /// There is no answer.
    Detection(DetectFault),
    /// An event counts the one at this line, and no more events than that one does: its clock forgets some, or each
    /// counts the other.
    Contradicts { line: u64 },
}

impl From<AllocError> for OrderedFault {
    ghost from_gives = { λ _ given. given ≡ Detection Memory };

    fn from(_error: AllocError) -> OrderedFault {
        OrderedFault::Detection(DetectFault::Memory)
    }
}
