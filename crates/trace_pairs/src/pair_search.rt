ghost use Rattle.std.specs.Prelude.{◌≡◌, ◌∷◌, ◌++◌, ◌<◌, [], IfOk, List, length};
ghost use Rattle.regex.specs.Patterns.{Re};
ghost use Rattle.trace_log.specs.Log.{Logged as SeenLogged};
ghost use Rattle.trace_log.specs.LoggedEvents.{FollowsIn};
ghost use Rattle.trace_log.specs.Turns.{seen_logged};
ghost use Rattle.trace_condition.specs.declared.rule.Rule.{Rule};
ghost use Rattle.trace_condition.specs.Asked.{Text};
ghost use Rattle.trace_pairs.specs.Taking.{lasting_of};
ghost use Rattle.trace_pairs.specs.Searching.{AddsHost, AreCounts, AreHosts, CanTakeMore, HasPair, HasPlace};
ghost use Rattle.trace_pairs.specs.Searching.{HasTakenLog, HasTakenSome, IsNoneOf, names_of, rule_in, TellsLast};
ghost use Rattle.trace_pairs.specs.Searching.{TellsMemberOf, TellsNext, TellsPairOf};

use crate::hosts::{MatchedHost, place_of, take_at};
use crate::hosts_condition::HostsCondition;
use crate::moment::{MatchedCount, PairMember, PairMoment};
use crate::rows::{HostPair, PairRow, end_each, row_of, take_each};
use regex::Matcher;
use std::alloc::{AllocError, Global};
use trace_condition::Condition;
use trace_log::Logged;
use trace_moment::Lasting;

/// The search for the earliest moment of any two hosts whose names match, in a log that is read event by event.
#[derive(Drop)]
pub struct PairSearch<'c> {
    alloc: Global,
    names: Matcher<'c>,
    condition: &'c Condition,
    hosts: Vec<MatchedHost<'c>>,
    rows: Vec<PairRow>,
}

impl<'c> PairSearch<'c> {
    /// Before the first event.
    pub fn new(alloc: Global, condition: &'c HostsCondition) -> Result<PairSearch<'c>, AllocError>
        ensures { IfOk result (HasTakenLog (names_of condition.now) (rule_in condition.now) []) }
    {
        Ok(PairSearch {
            alloc,
            names: condition.hosts.matcher(alloc)?,
            condition: &condition.condition,
            hosts: Vec::new(alloc),
            rows: Vec::new(alloc),
        })
    }

    /// Takes the next event of the log. Where a moment of two hosts is known with it, it is answered, and the search is
    /// over. After an `Err` there is no more to be taken.
    pub fn take(&mut self, logged: &Logged<'_>) -> Result<Option<PairMoment>, AllocError>
        requires { CanTakeMore self.old (seen_logged logged.now) }
        ensures { (pattern : Re) (rule : Rule Re) (before : List SeenLogged) →
            HasTakenLog pattern rule before self.old → FollowsIn before (seen_logged logged.now).event →
            TellsNext pattern rule (before ++ seen_logged logged.now ∷ []) result self.new }
    {
        let Some(place) = self.place_for(logged.event.host)? else {
            return Ok(None);
        };
        let holds = take_at(self.alloc, &mut self.hosts, place, logged)?;
        match take_each(&mut self.rows, place, logged, holds)? {
            Some(pair) => Ok(Some(self.moment(pair)?)),
            None => Ok(None),
        }
    }

    /// The place of a host, which comes behind the others where it is new; `None` where its name doesn't match.
    fn place_for(&mut self, host: &str) -> Result<Option<usize>, AllocError>
        requires { HasTakenSome self.old }
        ensures { (pattern : Re) (rule : Rule Re) (before : List SeenLogged) →
            HasTakenLog pattern rule before self.old →
            IfOk result (λ place. HasPlace pattern rule before host.now place self.new) }
    {
        if let Some(place) = place_of(&self.hosts, host) {
            return Ok(Some(place));
        }
        if !self.names.is_match(host) {
            return Ok(None);
        }
        let place = self.hosts.len();
        self.add(host)?;
        Ok(Some(place))
    }

    /// Adds a host that has logged nothing.
    fn add(&mut self, host: &str) -> Result<(), AllocError>
        requires { IsNoneOf host.now self.old.hosts.items }
        ensures { IfOk result (λ _. AddsHost host.now self.old self.new) }
    {
        let row = row_of(self.alloc, lasting_of(self.condition), &self.hosts, host)?;
        self.rows.push(row)?;
        let added = MatchedHost::new(self.alloc, self.condition, host)?;
        self.hosts.push(added)?;
        Ok(())
    }

    /// Ends the search: the log has no more events. Answers the earliest moment of the lowest two hosts that have one,
    /// in the order in which they came.
    pub fn end(&mut self) -> Result<Option<PairMoment>, AllocError>
        requires { HasTakenSome self.old }
        ensures last { (pattern : Re) (rule : Rule Re) (logged : List SeenLogged) →
            HasTakenLog pattern rule logged self.old → TellsLast pattern rule logged result }
        ensures counts { self.new.hosts ≡ self.old.hosts }
    {
        match end_each(&mut self.rows) {
            Some(pair) => Ok(Some(self.moment(pair)?)),
            None => Ok(None),
        }
    }

    /// The moment of two hosts that is known.
    fn moment(&self, pair: HostPair) -> Result<PairMoment, AllocError>
        requires { HasPair self.now pair }
        ensures { IfOk result (TellsPairOf self.now pair) }
    {
        let first = self.member(pair, 0, pair.first)?;
        let second = self.member(pair, 1, pair.second)?;
        Ok(PairMoment { first, second })
    }

    /// The event of one of two hosts in their moment.
    fn member(&self, pair: HostPair, watched: usize, place: usize) -> Result<PairMember, AllocError>
        requires pair { HasPair self.now pair }
        requires watched { watched < 2 }
        requires place { place < length self.now.hosts.items }
        ensures { IfOk result (TellsMemberOf self.now pair watched place) }
    {
        let search = &self.rows[pair.second].searches[pair.first];
        let Some(event) = search.event(watched) else {
            unreachable!();
        };
        Ok(PairMember {
            host: self.hosts[place].name.clone()?,
            line: event.line,
            text: event.text.clone()?,
        })
    }

    /// How many events each host has whose name matches, and at how many the condition holds, in the order in which
    /// they came.
    pub fn counts(&self) -> Result<Vec<MatchedCount>, AllocError>
        ensures { (rule : Rule Re) (logged : List SeenLogged) (names : List Text) →
            AreHosts rule logged names self.now.hosts.items →
            IfOk result (λ counts. AreCounts rule logged names counts.items) }
    {
        let mut counts = Vec::with_capacity(self.alloc, self.hosts.len())?;
        for host in &self.hosts {
            counts.push(MatchedCount {
                host: host.name.clone()?,
                events: host.events,
                matched: host.matched,
            })?;
        }
        Ok(counts)
    }
}

/// How long the states of a condition last.
fn lasting_of(condition: &Condition) -> Lasting
    ensures { result ≡ lasting_of condition.now.rule }
{
    if condition.lasts() {
        Lasting::While
    } else {
        Lasting::At
    }
}
