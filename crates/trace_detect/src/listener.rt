//! Who is told of events as they come. No answer depends on it, so nothing is proved of what is told.

use crate::judged::Judged;
use trace_condition::Condition;
use trace_log::Logged;

/// Is told of each event of a log before it is taken. No answer depends on what it does.
pub trait Listener {
    /// The next event is this one, with its line, host, clock and text. They are lent: nothing is copied for it.
    /// The hosts stand as they did before it.
    fn hear(&mut self, logged: &Logged<'_>, hosts: &WatchedHosts<'_, '_>);
}

/// Nobody listens.
impl Listener for () {
    fn hear(&mut self, _logged: &Logged<'_>, _hosts: &WatchedHosts<'_, '_>) {}
}

/// The watched hosts, in the order of their conditions.
#[derive(Clone, Copy)]
pub struct WatchedHosts<'w, 'c> {
    pub(crate) conditions: &'c [Condition],
    pub(crate) judges: &'w [Judged<'c>],
}

impl<'w, 'c> WatchedHosts<'w, 'c> {
    /// No hosts.
    pub fn none() -> WatchedHosts<'w, 'c> {
        WatchedHosts {
            conditions: &[],
            judges: &[],
        }
    }
}

impl WatchedHosts<'_, '_> {
    /// How many they are.
    pub fn count(&self) -> usize {
        self.conditions.len()
    }

    /// Whether this host is watched.
    pub fn contain(&self, host: &str) -> bool {
        self.conditions
            .iter()
            .any(|condition| condition.host.as_str() == host)
    }

    /// The host at this place, if it has logged nothing yet.
    pub fn silent_at(&self, place: usize) -> Option<&str> {
        let judged = self.judges.get(place)?;
        if judged.tally.events > 0 {
            return None;
        }
        Some(self.conditions.get(place)?.host.as_str())
    }
}
