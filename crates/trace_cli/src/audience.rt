use trace_detect::Listener;

/// Is told of each event of a log, and of a host that is asked for and logs none. No answer depends on what it does.
pub trait Audience: Listener {
    /// A host that is asked for logs no event in the whole log.
    fn miss_host(&mut self);
}

/// Nobody listens.
impl Audience for () {
    fn miss_host(&mut self) {}
}
