use wcp_clock::ProcessSet;

/// The processes that have a condition; the others only pass messages on.
pub type Watched = ProcessSet;
