use crate::feed::Gap;
use crate::patience::CutTake;

/// What ended a relay before a last note of each of its processes was taken.
#[derive(Clone, Copy, Debug, PartialEq, Eq)]
pub(crate) enum TakeFault {
    /// A leaf took a note that wasn't the next one of its process.
    Gap(Gap),
    /// The lane of any other relay was cut as it took.
    Cut(CutTake),
}
