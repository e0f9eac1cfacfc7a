use wcp_clock::Clock;

/// An event that a process recorded.
#[derive(Debug, Drop)]
pub(crate) struct RecordedEvent {
    pub clock: Clock,
    pub text: String,
}
