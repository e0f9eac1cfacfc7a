use thiserror::Error;

/// Why the ends of a watch don't prove its report. Where several apply, the first of these is given: `Stranger`,
/// `Missing`, `Faulted`, `Unfinished`. So a fault of an end counts before what it left behind, though it stands last
/// here.
#[derive(Clone, Copy, Debug, PartialEq, Eq, Error)]
pub enum SettleFault {
    /// An end has another watch number than the checker's, or a probe or a relay has two ends.
    #[error("an end of another watch, or one twice")]
    Stranger,
    /// A probe or a relay has no end.
    #[error("an end is missing")]
    Missing,
    /// Not all that was put was taken, or the book's shares aren't just those of the processes, or its cut isn't just
    /// the checker's.
    #[error("not all was taken")]
    Unfinished,
    /// An end has a fault: that of a relay, or the checker's.
    #[error("an end with a fault")]
    Faulted,
}
