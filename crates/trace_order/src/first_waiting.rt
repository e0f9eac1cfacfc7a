//! Which event is named of those that wait.
ghost use Rattle.std.specs.Prelude.{◌≡◌, map, option_map, string_bytes};
ghost use Rattle.std.specs.Option.{option_copied};
ghost use Rattle.trace_order.specs.Giving.{state_of};
ghost use Rattle.trace_order.specs.State.{is_announced};
ghost use Rattle.trace_order.specs.Waiting.{first_to_wait, has_senders, is_named_before, sooner, first_not, waited_for};

use crate::event::MessageEvent;
use crate::order::MessageOrder;
use crate::sent::first_unsent;

impl MessageOrder {
    #[tactic(auto, unfolding(crate::specs::Waiting::first_to_wait), using(std::proofs::lemmas::List::Sums::fold_more))]
    /// The event that is named where events wait at the end of the log: of those that wait for a message that no event
    /// sends the one with the lowest line, and of all where there is no such one.
    pub fn first_waiting(&self) -> Option<&MessageEvent>
        ensures { option_copied result ≡ first_to_wait (state_of self.now) }
    {
        let mut first = None;
        for host in &self.hosts {
            first = self.sooner(first, host.first());
        }
        first
    }

    /// The one of two events that is named before the other.
    fn sooner<'e>(
        &self,
        first: Option<&'e MessageEvent>,
        other: Option<&'e MessageEvent>,
    ) -> Option<&'e MessageEvent>
        ensures { option_copied result
            ≡ sooner (is_announced self.now) (option_copied first.entry) (option_copied other.entry) }
    {
        match (first, other) {
            (None, other) => other,
            (Some(first), None) => Some(first),
            (Some(first), Some(other)) if self.is_named_before(other, first) => Some(other),
            (Some(first), Some(_)) => Some(first),
        }
    }

    /// Whether an event is named before another.
    fn is_named_before(&self, one: &MessageEvent, other: &MessageEvent) -> bool
        ensures { result ≡ is_named_before (is_announced self.now) one.now other.now }
    {
        let is_lower = one.line() < other.line();
        if self.has_senders(one) {
            self.has_senders(other) && is_lower
        } else {
            self.has_senders(other) || is_lower
        }
    }

    /// Whether each id that an event receives is sent by one that was read.
    fn has_senders(&self, event: &MessageEvent) -> bool
        ensures { result ≡ has_senders (is_announced self.now) event.now.receives }
    {
        self.first_unannounced(event.receives()).is_none()
    }

    /// The id for which an event waits: of those that it receives the first that no event sends, or else the first that
    /// no event sent that was given on.
    pub fn waited_for<'e>(&self, event: &'e MessageEvent) -> Option<&'e str>
        ensures { option_map (λ id. id.now) result ≡ waited_for (state_of self.now) event.now.receives }
    {
        match self.first_unannounced(event.receives()) {
            Some(id) => Some(id),
            None => first_unsent(&self.sent, event.receives()),
        }
    }

    /// The first of these ids that no event sends which was read.
    fn first_unannounced<'e>(&self, ids: &'e [String]) -> Option<&'e str>
        ensures { option_map (λ id. id.now) result ≡ first_not (is_announced self.now) (map string_bytes ids.now) }
    {
        for id in ids {
            if !self.announced.contains_key(id.as_str()) {
                return Some(id.as_str());
            }
        }
        None
    }
}
