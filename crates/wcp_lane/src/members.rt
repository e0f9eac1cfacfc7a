use wcp_clock::ProcessSet;

/// The processes that an end of a lane serves.
pub type Members = ProcessSet;
