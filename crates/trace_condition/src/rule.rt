/// When a condition of a host holds, by expressions over the texts of the host's events.
#[derive(Debug, Drop)]
pub enum Rule<E> {
    /// At an event whose text has a match. It lasts until the host's next event.
    While(E),
    /// From an event that has a match of the first up to one that has a match of the second. It lasts until the
    /// host's next event.
    FromUntil(E, E),
    /// At an event whose text has a match, and no longer than the event.
    At(E),
}
