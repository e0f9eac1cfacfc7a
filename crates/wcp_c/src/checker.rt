//! The checker, behind a handle in a caller's memory.
ghost use Rattle.std.specs.Prelude.{◌≡◌, ◌≢◌, ◌<◌, ◌≤◌, ◌↔◌, true, false, [], ◌∷◌, Some, None, List, IsSome, IfSome};
ghost use Rattle.std.specs.Prelude.{MatchOption};
ghost use Rattle.wcp_clock.specs.Limits.{most_processes};
ghost use Rattle.wcp_clock.specs.ProcessNumbers.{NumberSet};
ghost use Rattle.wcp_clock.specs.declared.note.Item.{Item};
ghost use Rattle.wcp_model.specs.Watched.{AreAllWatched};
ghost use Rattle.wcp_queue.specs.Checker.{lost_of, StandsForItems};
ghost use Rattle.wcp_c.specs.Answers.{done, in_use, no_checker, no_note, out_of_range};
ghost use Rattle.wcp_c.specs.Checkers.{IsMade, IsNewChecker, IsSameWatch, IsSetOf, IsTaken, NamesProcesses};
ghost use Rattle.wcp_c.specs.Checkers.{checker_in, lose_refusal, lost_item, take_refusal};
ghost use Rattle.wcp_c.specs.Notes.{HoldsNote, item_of};
ghost use Rattle.wcp_c.specs.Questions.{first_of, TakesNote};
ghost use Rattle.wcp_c.specs.Tags.{TakesTagged};

use crate::answer::{DONE, IN_USE, NO_CHECKER, NO_MEMORY, OUT_OF_RANGE};
use crate::handle::WcpChecker;
use crate::note::WcpNote;
use crate::watched::{are_processes, watched_of};
use crate::watching::boxed;
use std::alloc::Global;
use wcp_clock::{MAX_PROCS, ProcessSet};

/// Puts into the handle a checker of this watch, of so many processes, each of them watched, that has taken
/// nothing.
#[unsafe(no_mangle)]
pub extern "C" fn wcp_checker_new(
    alloc: Global,
    checker: &mut WcpChecker,
    watch: u64,
    processes: u32,
) -> u32
    ensures in_use { result ≡ in_use ↔ IsSome (checker_in checker.old) }
    ensures range { checker_in checker.old ≡ None
        → (result ≡ out_of_range ↔ ((0 < processes) × (processes ≤ most_processes) → ⊥)) }
    ensures made { result ≡ done → IfSome (checker_in checker.new)
        (λ made. (watched : NumberSet) × AreAllWatched processes watched
        × IsNewChecker made watch processes (watched ∷ []) false) }
    ensures there { result ≡ done → IsSome (checker_in checker.new) }
    ensures answers { IsMade result }
    ensures same { result ≢ done → checker_in checker.new ≡ checker_in checker.old }
{
    if checker.is_held() {
        return IN_USE;
    }
    if processes == 0 || processes as usize > MAX_PROCS {
        return OUT_OF_RANGE;
    }
    match boxed(alloc, watch, processes, ProcessSet::all(processes)) {
        Ok(made) => {
            *checker = WcpChecker::of(made);
            DONE
        }
        Err(_) => NO_MEMORY,
    }
}

/// The same where only these processes are watched, each named by its number.
#[unsafe(no_mangle)]
pub extern "C" fn wcp_checker_new_with(
    alloc: Global,
    checker: &mut WcpChecker,
    watch: u64,
    processes: u32,
    watched: &[u32],
) -> u32
    ensures in_use { result ≡ in_use ↔ IsSome (checker_in checker.old) }
    ensures range { checker_in checker.old ≡ None
        → (result ≡ out_of_range ↔ ((processes ≤ most_processes) × NamesProcesses processes watched.now → ⊥)) }
    ensures made { result ≡ done → IfSome (checker_in checker.new)
        (λ made. (members : NumberSet) × IsSetOf watched.now members
        × IsNewChecker made watch processes (members ∷ []) false) }
    ensures there { result ≡ done → IsSome (checker_in checker.new) }
    ensures answers { IsMade result }
    ensures same { result ≢ done → checker_in checker.new ≡ checker_in checker.old }
{
    if checker.is_held() {
        return IN_USE;
    }
    if processes as usize > MAX_PROCS || !are_processes(processes, watched) {
        return OUT_OF_RANGE;
    }
    match boxed(alloc, watch, processes, watched_of(processes, watched)) {
        Ok(made) => {
            *checker = WcpChecker::of(made);
            DONE
        }
        Err(_) => NO_MEMORY,
    }
}

/// The checker takes a note, if it is the next of its process.
#[unsafe(no_mangle)]
pub extern "C" fn wcp_checker_take(alloc: Global, checker: &mut WcpChecker, note: &WcpNote) -> u32
    ensures none { result ≡ no_checker ↔ (checker_in checker.old ≡ None) }
    ensures note { IsSome (checker_in checker.old) → (result ≡ no_note ↔ (HoldsNote note.now → ⊥)) }
    ensures first { IfSome (checker_in checker.old) (λ old. HoldsNote note.now
        → MatchOption (take_refusal old note.now) (IsTaken result) (λ why. result ≡ why)) }
    ensures taken { result ≡ done → IfSome (checker_in checker.old) (λ old. IfSome (checker_in checker.new)
        (λ new. TakesNote old.questions new.questions (item_of note.now) × IsSameWatch old new)) }
    ensures tagged { result ≡ done → IfSome (checker_in checker.old) (λ old. IfSome (checker_in checker.new)
        (λ new. TakesTagged old new (item_of note.now) note.now.tag)) }
    ensures there { IsSome (checker_in checker.old) → IsSome (checker_in checker.new) }
    ensures same { result ≢ done → checker_in checker.new ≡ checker_in checker.old }
{
    let Some(mut taker) = checker.take_out(alloc) else {
        return NO_CHECKER;
    };
    let answer = taker.take(note);
    *checker = WcpChecker::of(taker);
    answer
}

/// Process `p` is gone: no note of it is taken any more, and the report is never that there is no cut.
#[unsafe(no_mangle)]
pub extern "C" fn wcp_checker_lose(alloc: Global, checker: &mut WcpChecker, p: u32) -> u32
    ensures none { result ≡ no_checker ↔ (checker_in checker.old ≡ None) }
    ensures first { IfSome (checker_in checker.old)
        (λ old. MatchOption (lose_refusal (first_of old.questions) p) (result ≡ done) (λ why. result ≡ why)) }
    ensures taken { result ≡ done → IfSome (checker_in checker.old) (λ old. IfSome (checker_in checker.new)
        (λ new. TakesNote old.questions new.questions (lost_item (first_of old.questions) p) × IsSameWatch old new)) }
    ensures lost { result ≡ done → IfSome (checker_in checker.old) (λ old. IfSome (checker_in checker.new)
        (λ new. (items : List Item) → StandsForItems (first_of old.questions) items
        → lost_of (first_of new.questions) p ≡ true)) }
    ensures tagged { result ≡ done → IfSome (checker_in checker.old) (λ old. IfSome (checker_in checker.new)
        (λ new. TakesTagged old new (lost_item (first_of old.questions) p) 0)) }
    ensures there { IsSome (checker_in checker.old) → IsSome (checker_in checker.new) }
    ensures same { result ≢ done → checker_in checker.new ≡ checker_in checker.old }
{
    let Some(mut loser) = checker.take_out(alloc) else {
        return NO_CHECKER;
    };
    let answer = loser.lose(p);
    *checker = WcpChecker::of(loser);
    answer
}

/// Ends the checker and frees its memory: the handle then holds none.
#[unsafe(no_mangle)]
pub extern "C" fn wcp_checker_end(alloc: Global, checker: &mut WcpChecker) -> u32
    ensures none { result ≡ no_checker ↔ (checker_in checker.old ≡ None) }
    ensures done { IsSome (checker_in checker.old) → result ≡ done }
    ensures left { checker_in checker.new ≡ None }
{
    match checker.take_out(alloc) {
        Some(_ended) => DONE,
        None => NO_CHECKER,
    }
}
