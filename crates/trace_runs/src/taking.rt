ghost use Rattle.std.specs.Prelude.{◌≡◌, ◌<◌, ℕ, length, List, [], ◌∷◌, ◌++◌, map, IfOk, OnOk, OnErr};
ghost use Rattle.trace_log.specs.Clock.{number_of};
ghost use Rattle.trace_log.specs.Turns.{seen_logged};
ghost use Rattle.trace_log.specs.Views.{seen_clock};
ghost use Rattle.trace_moment.specs.Moment.{Taken, IsNextAt};
ghost use Rattle.trace_runs.specs.Kept.{kept_at, watched_in, NoneIsPassed, HaveFirstsWhere};
ghost use Rattle.trace_runs.specs.Keeping.{IsSearching, KeepNext, KeepWaiting};

use crate::elimination::eliminate;
use crate::queue::RunQueue;
use crate::standing::all_stand;
use std::alloc::{AllocError, Global};
use trace_log::{Event, Logged, number_at, number_of, place_of};

/// Takes the next event of the host at `place`, at which its condition holds or not, and eliminates. Answers whether
/// the first runs are known to overlap. `Err` where memory runs out: nothing has changed. The room for numbers and the
/// marks of hosts are used again from event to event, and `failing` is a host that may not stand.
pub(crate) fn take_next(
    alloc: Global,
    room: &mut Vec<u32>,
    queues: &mut [RunQueue],
    touched: &mut [bool],
    failing: &mut usize,
    place: usize,
    logged: &Logged<'_>,
    holds: bool,
) -> Result<bool, AllocError>
    requires within { place < length queues.old }
    requires in_step { length touched.old ≡ length queues.old }
    ensures taken { (taken : List Taken) → IsSearching taken queues.old →
        IsNextAt (watched_in queues.old) place taken (seen_logged logged.now) → IfOk result (λ known.
        KeepNext (taken ++ record { logged = seen_logged logged.now; holds = holds } ∷ []) queues.new known) }
    ensures firsts { IfOk result (λ known. HaveFirstsWhere known queues.new) }
    ensures watched { watched_in queues.new ≡ watched_in queues.old }
    ensures unchanged { OnErr result (queues.new ≡ queues.old) }
{
    add(alloc, room, queues, touched, place, logged, holds)?;
    Ok(all_stand(queues, failing))
}

/// Adds the next event of the host at `place`, at which its condition holds or not, and eliminates. `Err` where memory
/// runs out: nothing has changed.
fn add(
    alloc: Global,
    room: &mut Vec<u32>,
    queues: &mut [RunQueue],
    touched: &mut [bool],
    place: usize,
    logged: &Logged<'_>,
    holds: bool,
) -> Result<(), AllocError>
    requires within { place < length queues.old }
    requires in_step { length touched.old ≡ length queues.old }
    ensures waiting { (taken : List Taken) → KeepWaiting taken queues.old →
        IsNextAt (watched_in queues.old) place taken (seen_logged logged.now) → OnOk result
        (KeepWaiting (taken ++ record { logged = seen_logged logged.now; holds = holds } ∷ []) queues.new) }
    ensures settled { NoneIsPassed queues.old → OnOk result (NoneIsPassed queues.new) }
    ensures watched { watched_in queues.new ≡ watched_in queues.old }
    ensures unchanged { OnErr result (queues.new ≡ queues.old) }
{
    read_numbers(room, queues, place, &logged.event)?;
    add_with(alloc, room, queues, touched, place, logged, holds)
}

/// The same of an event whose clock has these numbers of the watched hosts.
fn add_with(
    alloc: Global,
    numbers: &mut Vec<u32>,
    queues: &mut [RunQueue],
    touched: &mut [bool],
    place: usize,
    logged: &Logged<'_>,
    holds: bool,
) -> Result<(), AllocError>
    requires within { place < length queues.old }
    requires in_step { length touched.old ≡ length queues.old }
    requires numbers { numbers.old.items
        ≡ map (λ queue. number_of queue.host (seen_clock logged.now.event.clock.now)) queues.old }
    ensures waiting { (taken : List Taken) → KeepWaiting taken queues.old →
        IsNextAt (watched_in queues.old) place taken (seen_logged logged.now) → OnOk result
        (KeepWaiting (taken ++ record { logged = seen_logged logged.now; holds = holds } ∷ []) queues.new) }
    ensures settled { NoneIsPassed queues.old → OnOk result (NoneIsPassed queues.new) }
    ensures watched { watched_in queues.new ≡ watched_in queues.old }
    ensures unchanged { OnErr result (queues.new ≡ queues.old) }
{
    let number = numbers[place];
    let changes = queues[place].changes_first(holds);
    queues[place].take(alloc, logged, number, numbers, holds)?;
    if changes {
        eliminate(queues, touched, place);
    }
    Ok(())
}

/// Puts the numbers of the watched hosts in an event's clock into the place of others, in the order of the hosts. The
/// host at `place` is the event's.
fn read_numbers(
    numbers: &mut Vec<u32>,
    queues: &mut [RunQueue],
    place: usize,
    event: &Event<'_>,
) -> Result<(), AllocError>
    requires { place < length queues.old }
    ensures numbers { OnOk result
        (numbers.new.items ≡ map (λ queue. number_of queue.host (seen_clock event.now.clock.now)) queues.old) }
    ensures same { queues.new ≡ queues.old }
{
    numbers.clear();
    for q in 0..queues.len() {
        numbers.push(number_for(queues, place, q, event))?;
    }
    Ok(())
}

/// The number of the watched host at `q` in the clock of an event of the host at `place`.
fn number_for(queues: &mut [RunQueue], place: usize, q: usize, event: &Event<'_>) -> u32
    requires within { place < length queues.old }
    requires watched { q < length queues.old }
    ensures number { result ≡ number_of (kept_at queues.old q).host (seen_clock event.now.clock.now) }
    ensures same { queues.new ≡ queues.old }
{
    let clock = event.clock;
    if let Some(number) = number_at(queues[q].host(), clock, queues[place].place_of(q)) {
        return number;
    }
    let number = number_of(queues[q].host(), clock);
    if number > 0 {
        let found = place_of(queues[q].host(), clock);
        queues[place].note_place(q, found);
    }
    number
}
