//! A search for each two hosts.

ghost use Rattle.std.specs.Prelude.{◌≡◌, ◌<◌, ◌∷◌, ◌++◌, [], IfOk, OnOk, List, length, map};
ghost use Rattle.std.specs.Prelude.{slice_index_or, string_bytes};
ghost use Rattle.regex.specs.Patterns.{Re};
ghost use Rattle.trace_log.specs.Log.{Logged as SeenLogged};
ghost use Rattle.trace_log.specs.Turns.{seen_logged};
ghost use Rattle.trace_moment.specs.declared.search.Search.{Search as OwnSearch};
ghost use Rattle.trace_moment.specs.Views.{seen_watch};
ghost use Rattle.trace_moment.specs.Search.{watched_by};
ghost use Rattle.trace_condition.specs.declared.rule.Rule.{Rule};
ghost use Rattle.trace_condition.specs.Asked.{Text};
ghost use Rattle.trace_pairs.specs.Rows.{AreRows, ComesAt, Ends, EndsEach, EndsFrom, StandAll, StandPartly};
ghost use Rattle.trace_pairs.specs.Rows.{TakesAt, TakesEach, TakesOne, pair_at};
ghost use Rattle.trace_pairs.specs.Searching.{IsNoneOf, StandsWithNew, StandWithNew};

use crate::hosts::MatchedHost;
use std::alloc::{AllocError, Global};
use trace_log::Logged;
use trace_moment::{Lasting, Search, WatchedHost};

/// The searches of a host with each of those that came before it, in their order.
#[derive(Debug, Drop)]
pub(crate) struct PairRow {
    pub searches: Vec<Search>,
}

/// Two hosts, by their places in the order in which they came.
#[derive(Clone, Copy, Debug, PartialEq, Eq)]
pub(crate) struct HostPair {
    pub first: usize,
    pub second: usize,
}

/// The searches of a host with this name with each of these hosts, from what is kept of them. It has logged nothing.
pub(crate) fn row_of(
    alloc: Global,
    lasting: Lasting,
    hosts: &[MatchedHost<'_>],
    name: &str,
) -> Result<PairRow, AllocError>
    requires { IsNoneOf name.now hosts.now }
    ensures { IfOk result (λ row. StandWithNew lasting hosts.now name.now row.searches.items) }
{
    let mut searches = Vec::with_capacity(alloc, hosts.len())?;
    for host in hosts {
        let search = search_of(alloc, lasting, host, name)?;
        searches.push(search)?;
    }
    Ok(PairRow { searches })
}

/// The search of a host, from what is kept of it, with one that has logged nothing.
fn search_of(
    alloc: Global,
    lasting: Lasting,
    host: &MatchedHost<'_>,
    name: &str,
) -> Result<Search, AllocError>
    requires { string_bytes host.now.name ≡ name.now → ⊥ }
    ensures { IfOk result (StandsWithNew lasting host.now name.now) }
{
    let watched = watched_two(alloc, lasting, host.name.as_str(), name)?;
    let mut search = Search::new(alloc, watched)?;
    host.kept.replay(host.name.as_str(), &mut search)?;
    Ok(search)
}

/// Two hosts that are watched.
fn watched_two(
    alloc: Global,
    lasting: Lasting,
    first: &str,
    second: &str,
) -> Result<Vec<WatchedHost>, AllocError>
    ensures { IfOk result (λ watched. map seen_watch watched.items
        ≡ record { host = first.now; lasting = lasting } ∷ record { host = second.now; lasting = lasting } ∷ []) }
{
    let first = String::from_str(alloc, first)?;
    let second = String::from_str(alloc, second)?;
    let mut watched = Vec::with_capacity(alloc, 2)?;
    watched.push(WatchedHost {
        host: first,
        lasting,
    })?;
    watched.push(WatchedHost {
        host: second,
        lasting,
    })?;
    Ok(watched)
}

impl PairRow {
    /// The search with the host at this place takes the next event of the one of its hosts that is watched there.
    fn take(
        &mut self,
        at: usize,
        watched: usize,
        logged: &Logged<'_>,
        holds: bool,
    ) -> Result<bool, AllocError>
        requires at { at < length self.old.searches.items }
        requires watched { (search : OwnSearch) →
            watched < length (watched_by (slice_index_or self.old.searches.items at search)) }
        ensures { IfOk result (λ known. TakesAt at watched (record { logged = seen_logged logged.now; holds = holds })
            self.old.searches.items self.new.searches.items known) }
    {
        self.searches[at].take(watched, logged, holds)
    }

    /// Ends the search with the host at this place.
    fn end(&mut self, at: usize) -> bool
        requires { at < length self.old.searches.items }
        ensures { Ends at self.old.searches.items result self.new.searches.items }
    {
        self.searches[at].end()
    }
}

/// The search of the host at `place` with another one takes its next event.
fn take_with(
    rows: &mut [PairRow],
    place: usize,
    other: usize,
    logged: &Logged<'_>,
    holds: bool,
) -> Result<bool, AllocError>
    requires place { place < length rows.old }
    requires other { other < length rows.old }
    requires rows { AreRows rows.old }
    ensures rows { OnOk result (AreRows rows.new) }
    ensures taken { (rule : Rule Re) (before : List SeenLogged) (hosts : List Text) →
        StandPartly rule before (seen_logged logged.now) hosts place other rows.old →
        ComesAt rule before (seen_logged logged.now) holds hosts place →
        TakesOne rule before (seen_logged logged.now) hosts place other (pair_at place other) result rows.new }
{
    if other == place {
        return Ok(false);
    }
    if other < place {
        rows[place].take(other, 1, logged, holds)
    } else {
        rows[other].take(place, 0, logged, holds)
    }
}

/// The two hosts at these places, which differ, in their order.
fn pair_of(place: usize, other: usize) -> HostPair
    ensures { result ≡ pair_at place other }
{
    if other < place {
        HostPair {
            first: other,
            second: place,
        }
    } else {
        HostPair {
            first: place,
            second: other,
        }
    }
}

/// The searches of the host at `place` with each other one take its next event, until one knows a moment. Answers
/// which.
pub(crate) fn take_each(
    rows: &mut [PairRow],
    place: usize,
    logged: &Logged<'_>,
    holds: bool,
) -> Result<Option<HostPair>, AllocError>
    requires place { place < length rows.old }
    requires rows { AreRows rows.old }
    ensures { (rule : Rule Re) (before : List SeenLogged) (hosts : List Text) →
        StandAll rule before hosts rows.old → ComesAt rule before (seen_logged logged.now) holds hosts place →
        TakesEach rule (before ++ seen_logged logged.now ∷ []) hosts result rows.new }
{
    for other in 0..rows.len() {
        if take_with(rows, place, other, logged, holds)? {
            return Ok(Some(pair_of(place, other)));
        }
    }
    Ok(None)
}

/// Ends the searches, until one knows a moment. Answers which.
pub(crate) fn end_each(rows: &mut [PairRow]) -> Option<HostPair>
    requires { AreRows rows.old }
    ensures { (rule : Rule Re) (logged : List SeenLogged) (hosts : List Text) → StandAll rule logged hosts rows.old →
        EndsEach rule logged hosts result rows.new }
{
    for first in 0..rows.len() {
        if let Some(second) = end_with(rows, first) {
            return Some(HostPair { first, second });
        }
    }
    None
}

/// Ends the searches of the host at this place with those that came behind it, until one knows a moment.
fn end_with(rows: &mut [PairRow], first: usize) -> Option<usize>
    requires first { first < length rows.old }
    requires rows { AreRows rows.old }
    ensures { EndsFrom first rows.old result rows.new }
{
    for second in first + 1..rows.len() {
        if rows[second].end(first) {
            return Some(second);
        }
    }
    None
}
