//! What is known of each host whose name matches.

ghost use Rattle.std.specs.Prelude.{[], ◌<◌, IfNone, IfOk, IfSome, length};
ghost use Rattle.std.specs.Prelude.{slice_index_or};
ghost use Rattle.trace_log.specs.Turns.{seen_logged};
ghost use Rattle.trace_condition.specs.Conditions.{rule_of};
ghost use Rattle.trace_pairs.specs.Searching.{HasRoomFor, IsNoneOf, IsPlaceOf, KnowsHost, TakesHost, TakesHostAt};

use crate::kept::HostEvents;
use std::alloc::{AllocError, Global};
use trace_condition::{Condition, Judge};
use trace_log::Logged;

/// A host: the judge of its events, how many they are and at how many the condition holds, and those that are kept.
#[derive(Drop)]
pub(crate) struct MatchedHost<'c> {
    pub name: String,
    judge: Judge<'c>,
    pub events: u64,
    pub matched: u64,
    pub kept: HostEvents,
}

impl<'c> MatchedHost<'c> {
    /// A host with this name, before its first event.
    pub fn new(
        alloc: Global,
        condition: &'c Condition,
        name: &str,
    ) -> Result<MatchedHost<'c>, AllocError>
        ensures { IfOk result (KnowsHost (rule_of condition.now) [] name.now) }
    {
        Ok(MatchedHost {
            name: String::from_str(alloc, name)?,
            judge: condition.judge(alloc)?,
            events: 0,
            matched: 0,
            kept: HostEvents::new(alloc),
        })
    }

    /// Takes the host's next event, and answers whether the condition holds at it.
    fn take(&mut self, alloc: Global, logged: &Logged<'_>) -> Result<bool, AllocError>
        requires { HasRoomFor self.old }
        ensures { IfOk result (λ holds. TakesHost self.old (seen_logged logged.now) holds self.new) }
    {
        let holds = self.judge.holds(logged.event.text);
        self.kept.take(alloc, logged, holds)?;
        self.events += 1;
        if holds {
            self.matched += 1;
        }
        Ok(holds)
    }
}

/// The place of the host with this name, if it is among these.
pub(crate) fn place_of(hosts: &[MatchedHost<'_>], name: &str) -> Option<usize>
    ensures some { IfSome result (λ place. IsPlaceOf name.now hosts.now place) }
    ensures none { IfNone result (IsNoneOf name.now hosts.now) }
{
    for place in 0..hosts.len() {
        if hosts[place].name.as_str() == name {
            return Some(place);
        }
    }
    None
}

/// The host at this place takes its next event. Answers whether the condition holds at it.
pub(crate) fn take_at(
    alloc: Global,
    hosts: &mut [MatchedHost<'_>],
    place: usize,
    logged: &Logged<'_>,
) -> Result<bool, AllocError>
    requires place { place < length hosts.old }
    requires room { (host : _) → HasRoomFor (slice_index_or hosts.old place host) }
    ensures { IfOk result (λ holds. TakesHostAt place hosts.old (seen_logged logged.now) holds hosts.new) }
{
    hosts[place].take(alloc, logged)
}
