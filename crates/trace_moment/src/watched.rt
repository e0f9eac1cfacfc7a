/// How long a state lasts that begins with an event.
#[derive(Clone, Copy, Debug, PartialEq, Eq)]
pub enum Lasting {
    /// Until the host's next event; after its last event a host stays in that state.
    While,
    /// At the event alone.
    At,
}

/// A watched host, and how long its states last.
#[derive(Debug, Drop)]
pub struct WatchedHost {
    pub host: String,
    pub lasting: Lasting,
}
