//! Checkers of several questions, behind a handle in a caller's memory.
ghost use Rattle.std.specs.Prelude.{◌≡◌, ◌≢◌, ◌<◌, ◌≤◌, ◌↔◌, true, None, List, All, IfOk, IsSome, IfSome, length};
ghost use Rattle.wcp_clock.specs.Limits.{most_processes};
ghost use Rattle.wcp_clock.specs.ProcessNumbers.{NumberSet};
ghost use Rattle.wcp_queue.specs.Pairs.{ArePairs};
ghost use Rattle.wcp_c.specs.Answers.{done, in_use, out_of_range};
ghost use Rattle.wcp_c.specs.Checkers.{IsMade, IsNewChecker, checker_in};
ghost use Rattle.wcp_c.specs.Masks.{AreSetsOf, IsMask, most_questions};

use crate::answer::{DONE, IN_USE, NO_MEMORY, OUT_OF_RANGE};
use crate::handle::WcpChecker;
use crate::masks::{are_masks, sets_of};
use crate::several::{MAX_QUESTIONS, Several};
use crate::watching::{Watching, boxed_several};
use std::alloc::{AllocError, Global};
use wcp_clock::MAX_PROCS;
use wcp_queue::Panel;

/// Puts into the handle a checker of this watch, of so many processes, that has taken nothing, with a question
/// for each of these masks of watched processes, in their order.
#[unsafe(no_mangle)]
pub extern "C" fn wcp_checker_new_sets(
    alloc: Global,
    checker: &mut WcpChecker,
    watch: u64,
    processes: u32,
    masks: &[u32],
) -> u32
    ensures in_use { result ≡ in_use ↔ IsSome (checker_in checker.old) }
    ensures range { checker_in checker.old ≡ None → (result ≡ out_of_range ↔ ((processes ≤ most_processes)
        × (0 < length masks.now) × (length masks.now ≤ most_questions) × All (IsMask processes) masks.now → ⊥)) }
    ensures made { result ≡ done → IfSome (checker_in checker.new)
        (λ made. (sets : List NumberSet) × AreSetsOf masks.now sets × IsNewChecker made watch processes sets true) }
    ensures there { result ≡ done → IsSome (checker_in checker.new) }
    ensures answers { IsMade result }
    ensures same { result ≢ done → checker_in checker.new ≡ checker_in checker.old }
{
    if checker.is_held() {
        return IN_USE;
    }
    if processes as usize > MAX_PROCS || masks.is_empty() || masks.len() > MAX_QUESTIONS {
        return OUT_OF_RANGE;
    }
    if !are_masks(processes, masks) {
        return OUT_OF_RANGE;
    }
    match boxed_sets(alloc, watch, processes, masks) {
        Ok(made) => {
            *checker = WcpChecker::of(made);
            DONE
        }
        Err(_) => NO_MEMORY,
    }
}

/// Puts into the handle a checker of this watch, of so many processes, that has taken nothing, with a question
/// for each pair of processes, in order: (0, 1), (0, 2), .., (1, 2), ..
#[unsafe(no_mangle)]
pub extern "C" fn wcp_checker_new_pairs(
    alloc: Global,
    checker: &mut WcpChecker,
    watch: u64,
    processes: u32,
) -> u32
    ensures in_use { result ≡ in_use ↔ IsSome (checker_in checker.old) }
    ensures range { checker_in checker.old ≡ None
        → (result ≡ out_of_range ↔ ((1 < processes) × (processes ≤ most_processes) → ⊥)) }
    ensures made { result ≡ done → IfSome (checker_in checker.new)
        (λ made. (sets : List NumberSet) × ArePairs processes sets × IsNewChecker made watch processes sets true) }
    ensures there { result ≡ done → IsSome (checker_in checker.new) }
    ensures answers { IsMade result }
    ensures same { result ≢ done → checker_in checker.new ≡ checker_in checker.old }
{
    if checker.is_held() {
        return IN_USE;
    }
    if processes < 2 || processes as usize > MAX_PROCS {
        return OUT_OF_RANGE;
    }
    match boxed_pairs(alloc, watch, processes) {
        Ok(made) => {
            *checker = WcpChecker::of(made);
            DONE
        }
        Err(_) => NO_MEMORY,
    }
}

/// Questions for these masks, on the heap. `Err` where memory runs out.
fn boxed_sets(
    alloc: Global,
    watch: u64,
    processes: u32,
    masks: &[u32],
) -> Result<Box<Watching>, AllocError>
    requires few { processes ≤ most_processes }
    requires some { 0 < length masks.now }
    requires not_too_many { length masks.now ≤ most_questions }
    requires masks { All (IsMask processes) masks.now }
    ensures { IfOk result (λ made. (sets : List NumberSet) × AreSetsOf masks.now sets
        × IsNewChecker made.value watch processes sets true) }
{
    let sets = sets_of(alloc, processes, masks)?;
    let panel = Panel::new(alloc, processes, &sets)?;
    boxed_several(alloc, watch, Several::of(panel))
}

/// Questions for each pair of processes, on the heap. `Err` where memory runs out.
fn boxed_pairs(alloc: Global, watch: u64, processes: u32) -> Result<Box<Watching>, AllocError>
    requires several { 1 < processes }
    requires few { processes ≤ most_processes }
    ensures { IfOk result (λ made. (sets : List NumberSet) × ArePairs processes sets
        × IsNewChecker made.value watch processes sets true) }
{
    let panel = Panel::pairs(alloc, processes)?;
    boxed_several(alloc, watch, Several::of(panel))
}
