ghost use Rattle.std.specs.Prelude.{◌≡◌, ◌<◌, ℕ, true, false, length, List, [], ◌∷◌, ◌++◌, map, slice_index};
ghost use Rattle.std.specs.Prelude.{IfSome, IfNone, IfOk, MatchBool, OnOk, OnErr};
ghost use Rattle.trace_log.specs.Clock.{number_of};
ghost use Rattle.trace_log.specs.Turns.{seen_logged};
ghost use Rattle.trace_log.specs.Views.{seen_clock};
ghost use Rattle.trace_moment.specs.Moment.{Taken, HaveDistinctHosts, IsNextAt};
ghost use Rattle.trace_moment.specs.Queues.{EventQueue as Queue, watched_by};
ghost use Rattle.trace_moment.specs.Kept.{AreKept, kept_at, watched_in, ends_below, NoneEndsBelow, RiseToNumbers};
ghost use Rattle.trace_moment.specs.Kept.{StandAtAll, OneFails, KeepFirsts, OneKeepsNone, KeepFirstsWhere};
ghost use Rattle.trace_moment.specs.Elimination.{AreLeft, AreUnderFloors, LastKnowsAll};
ghost use Rattle.trace_moment.specs.Keeping.{KeepTaken, KeepAll, KeepAdded, KeepLeft};

use crate::queue::EventQueue;
use std::alloc::{AllocError, Global};
use trace_log::{Event, Logged, number_at, number_of, place_of};

/// Takes the next event of the host at `place`, at which its condition holds or not, and eliminates. Answers whether
/// the first candidates are known to be the moment. `Err` where memory runs out: nothing has changed. The room for
/// numbers is used again from event to event.
pub(crate) fn take_next(
    alloc: Global,
    room: &mut Vec<u32>,
    queues: &mut [EventQueue],
    floors: &mut [u32],
    place: usize,
    logged: &Logged<'_>,
    holds: bool,
) -> Result<bool, AllocError>
    requires within { place < length queues.old }
    requires in_step { length floors.old ≡ length queues.old }
    ensures taken { (taken : List Taken) → KeepTaken taken queues.old floors.old false →
        IsNextAt (watched_in queues.old) place taken (seen_logged logged.now) → IfOk result (λ known.
        KeepTaken (taken ++ record { logged = seen_logged logged.now; holds = holds } ∷ []) queues.new floors.new
        known) }
    ensures all { (taken : List Taken) → KeepTaken taken queues.old floors.old false →
        IsNextAt (watched_in queues.old) place taken (seen_logged logged.now) → OnOk result
        (KeepAll (taken ++ record { logged = seen_logged logged.now; holds = holds } ∷ []) queues.new floors.new) }
    ensures firsts { IfOk result (λ known. KeepFirstsWhere known queues.new) }
    ensures watched { watched_in queues.new ≡ watched_in queues.old }
    ensures unchanged { OnErr result (queues.new ≡ queues.old) }
    ensures same_floors { OnErr result (floors.new ≡ floors.old) }
{
    add(alloc, room, queues, floors, place, logged, holds)?;
    eliminate(queues, floors);
    Ok(all_stand(queues, floors))
}

/// Adds the next event of the host at `place`, at which its condition holds or not. `Err` where memory runs out:
/// nothing has changed.
fn add(
    alloc: Global,
    room: &mut Vec<u32>,
    queues: &mut [EventQueue],
    floors: &mut [u32],
    place: usize,
    logged: &Logged<'_>,
    holds: bool,
) -> Result<(), AllocError>
    requires within { place < length queues.old }
    requires in_step { length floors.old ≡ length queues.old }
    ensures adds { (taken : List Taken) (all : List Queue) → AreKept queues.old all →
        HaveDistinctHosts (watched_by all) → LastKnowsAll taken →
        IsNextAt (watched_by all) place taken (seen_logged logged.now) →
        OnOk result (KeepAdded taken (record { logged = seen_logged logged.now; holds = holds })
        all queues.new floors.old floors.new) }
    ensures watched { watched_in queues.new ≡ watched_in queues.old }
    ensures unchanged { OnErr result (queues.new ≡ queues.old) }
    ensures same_floors { OnErr result (floors.new ≡ floors.old) }
{
    read_numbers(room, queues, place, &logged.event)?;
    add_with(alloc, queues, floors, place, logged, room.as_slice(), holds)
}

/// The same of an event whose clock has these numbers of the watched hosts.
fn add_with(
    alloc: Global,
    queues: &mut [EventQueue],
    floors: &mut [u32],
    place: usize,
    logged: &Logged<'_>,
    numbers: &[u32],
    holds: bool,
) -> Result<(), AllocError>
    requires within { place < length queues.old }
    requires in_step { length floors.old ≡ length queues.old }
    requires numbers { numbers.now
        ≡ map (λ queue. number_of queue.host (seen_clock logged.now.event.clock.now)) queues.old }
    ensures adds { (taken : List Taken) (all : List Queue) → AreKept queues.old all →
        HaveDistinctHosts (watched_by all) → LastKnowsAll taken →
        IsNextAt (watched_by all) place taken (seen_logged logged.now) →
        OnOk result (KeepAdded taken (record { logged = seen_logged logged.now; holds = holds })
        all queues.new floors.old floors.new) }
    ensures watched { watched_in queues.new ≡ watched_in queues.old }
    ensures unchanged { OnErr result (queues.new ≡ queues.old) }
    ensures same_floors { OnErr result (floors.new ≡ floors.old) }
{
    let is_front = queues[place].first().is_none();
    queues[place].take(alloc, logged, numbers[place], numbers, holds)?;
    if is_front {
        raise(floors, queues, place);
    }
    Ok(())
}

/// Puts the numbers of the watched hosts in an event's clock into the place of others, in the order of the hosts. The
/// host at `place` is the event's.
fn read_numbers(
    numbers: &mut Vec<u32>,
    queues: &mut [EventQueue],
    place: usize,
    event: &Event<'_>,
) -> Result<(), AllocError>
    requires { place < length queues.old }
    ensures numbers { OnOk result
        (numbers.new.items ≡ map (λ queue. number_of queue.host (seen_clock event.now.clock.now)) queues.old) }
    ensures same { queues.new ≡ queues.old }
{
    numbers.clear();
    for q in 0..queues.len() {
        numbers.push(number_for(queues, place, q, event))?;
    }
    Ok(())
}

/// The number of the watched host at `q` in the clock of an event of the host at `place`.
fn number_for(queues: &mut [EventQueue], place: usize, q: usize, event: &Event<'_>) -> u32
    requires within { place < length queues.old }
    requires watched { q < length queues.old }
    ensures number { result ≡ number_of (kept_at queues.old q).host (seen_clock event.now.clock.now) }
    ensures same { queues.new ≡ queues.old }
{
    let clock = event.clock;
    if let Some(number) = number_at(queues[q].host(), clock, queues[place].place_of(q)) {
        return number;
    }
    let number = number_of(queues[q].host(), clock);
    if number > 0 {
        let found = place_of(queues[q].host(), clock);
        queues[place].note_place(q, found);
    }
    number
}

/// Raises the floors of the other hosts to what the head of the host at `place` knows of them.
fn raise(floors: &mut [u32], queues: &[EventQueue], place: usize)
    requires within { place < length queues.now }
    requires in_step { length floors.old ≡ length queues.now }
    ensures { RiseToNumbers queues.now place floors.old floors.new }
{
    let head = &queues[place];
    for q in 0..queues.len() {
        if q != place {
            floors[q] = head.known_of(q).max(floors[q]);
        }
    }
}

/// Raises the floors of each host to what the heads of the others know of it.
pub(crate) fn raise_all(floors: &mut [u32], queues: &[EventQueue])
    requires in_step { length floors.old ≡ length queues.now }
    ensures { (taken : List Taken) (all : List Queue) → AreKept queues.now all → LastKnowsAll taken →
        AreLeft taken all floors.old → AreLeft taken all floors.new × AreUnderFloors all floors.new }
{
    for q in 0..queues.len() {
        raise(floors, queues, q);
    }
}

/// Drops candidates that are over until no first one is.
pub(crate) fn eliminate(queues: &mut [EventQueue], floors: &mut [u32])
    requires in_step { length floors.old ≡ length queues.old }
    ensures left { (taken : List Taken) (all : List Queue) → AreKept queues.old all → LastKnowsAll taken →
        AreLeft taken all floors.old → AreUnderFloors all floors.old → KeepLeft taken all queues.new floors.new }
    ensures settled { NoneEndsBelow queues.new floors.new }
    ensures watched { watched_in queues.new ≡ watched_in queues.old }
{
    while let Some(place) = first_passed(queues, floors) {
        queues[place].drop_first();
        raise(floors, queues, place);
    }
}

/// The first host whose first candidate is over.
fn first_passed(queues: &[EventQueue], floors: &[u32]) -> Option<usize>
    requires { length floors.now ≡ length queues.now }
    ensures none { IfNone result (NoneEndsBelow queues.now floors.now) }
    ensures within { IfSome result (λ p. p < length queues.now) }
    ensures passed { IfSome result (λ p.
        ends_below (slice_index floors.now p) (kept_at queues.now p).ended ≡ true) }
{
    for q in 0..queues.len() {
        if queues[q].is_passed(floors[q]) {
            return Some(q);
        }
    }
    None
}

/// Whether each host has a first candidate that lasts up to its floor.
pub(crate) fn all_stand(queues: &[EventQueue], floors: &[u32]) -> bool
    requires { length floors.now ≡ length queues.now }
    ensures { MatchBool result (StandAtAll queues.now floors.now) (OneFails queues.now floors.now) }
{
    for q in 0..queues.len() {
        if !queues[q].stands(floors[q]) {
            return false;
        }
    }
    true
}

/// Whether each host has a first candidate.
pub(crate) fn have_firsts(queues: &[EventQueue]) -> bool
    ensures { MatchBool result (KeepFirsts queues.now) (OneKeepsNone queues.now) }
{
    for q in 0..queues.len() {
        if queues[q].first().is_none() {
            return false;
        }
    }
    true
}
