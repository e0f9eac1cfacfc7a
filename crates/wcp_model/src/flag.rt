ghost use Rattle.std.specs.Prelude.{◌≡◌};
ghost use Rattle.wcp_model.specs.ProbeLog.{is_up_after_receive};

/// What resets the flag of a process, which its first true observation puts up: while it is up, a further one emits no
/// snapshot.
#[derive(Clone, Copy, Debug, PartialEq, Eq)]
pub enum Flag {
    /// Each send and each receive.
    Event,
    /// Each send.
    Send,
}

impl Flag {
    /// Whether the flag is up after a receive, if `up` says so of it before.
    pub fn is_up_after_receive(self, up: bool) -> bool
        ensures { result ≡ is_up_after_receive self up }
    {
        match self {
            Flag::Event => false,
            Flag::Send => up,
        }
    }
}
