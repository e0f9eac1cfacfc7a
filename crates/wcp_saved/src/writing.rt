//! What a checker holds, as words.
ghost use Rattle.std.specs.Prelude.{◌≡◌, ◌++◌, ◌^◌, ◌<◌, All, IfOk, IfSome, OnOk, map};
ghost use Rattle.wcp_queue.specs.Parts.{state_of};
ghost use Rattle.wcp_saved.specs.Spelling.{flags, counted, cut_words, marks_of, queue_words, queues_words, words_of};
ghost use Rattle.wcp_saved.specs.Spelling.{IsClock, IsInRange, IsQueue};

use std::alloc::{AllocError, Global};
use wcp_clock::{Clock, MAX_PROCS, PerProcess};
use wcp_model::Watched;
use wcp_queue::CheckerParts;

/// The first word of a saved checker, whose bytes are the letters "wullaphi".
const MAGIC: u64 = 7_595_444_335_293_527_415;

/// The version of the spelling.
const VERSION: u64 = 1;

/// The words of what a checker holds. `Err` where memory runs out.
pub fn words_of(alloc: Global, parts: &CheckerParts) -> Result<Vec<u64>, AllocError>
    ensures spelled { IfOk result (λ words. words.items ≡ words_of (state_of parts.now)) }
    ensures range { IfOk result (λ _. IsInRange (state_of parts.now)) }
{
    let mut words = Vec::new(alloc);
    words.push(MAGIC)?;
    words.push(VERSION)?;
    words.push(u64::from(parts.processes))?;
    words.push(parts.tests)?;
    words.push(u64::from(parts.starved))?;
    put_flags(&mut words, &marks_of(&parts.watched))?;
    words.extend_from_slice(&parts.taken)?;
    put_flags(&mut words, &parts.closed)?;
    put_flags(&mut words, &parts.lost)?;
    put_numbers(&mut words, &parts.floor)?;
    put_flags(&mut words, &parts.heads)?;
    put_cut(&mut words, &parts.found)?;
    put_queues(&mut words, &parts.queues)?;
    Ok(words)
}

/// For each of 16 processes, whether it is watched.
fn marks_of(watched: &Watched) -> [bool; MAX_PROCS]
    ensures { result ≡ marks_of watched.now }
{
    let mut marks = [false; MAX_PROCS];
    for p in 0..MAX_PROCS {
        marks[p] = watched.has(p as u32);
    }
    marks
}

fn put_flags(words: &mut Vec<u64>, marks: &[bool]) -> Result<(), AllocError>
    ensures { OnOk result (words.new.items ≡ words.old.items ++ flags marks.now) }
{
    for mark in marks {
        words.push(u64::from(*mark))?;
    }
    Ok(())
}

fn put_numbers(words: &mut Vec<u64>, numbers: &[u32]) -> Result<(), AllocError>
    ensures words { OnOk result (words.new.items ≡ words.old.items ++ numbers.now) }
    ensures range { OnOk result (All (λ number. number < 2 ^ 32) numbers.now) }
{
    for number in numbers {
        words.push(u64::from(*number))?;
    }
    Ok(())
}

fn put_cut(words: &mut Vec<u64>, found: &Option<PerProcess<u32>>) -> Result<(), AllocError>
    ensures words { OnOk result (words.new.items ≡ words.old.items ++ cut_words found.now) }
    ensures range { OnOk result (IfSome found.now IsClock) }
{
    match found {
        None => words.push(0)?,
        Some(intervals) => put_intervals(words, intervals)?,
    }
    Ok(())
}

fn put_intervals(words: &mut Vec<u64>, intervals: &PerProcess<u32>) -> Result<(), AllocError>
    ensures words { OnOk result (words.new.items ≡ words.old.items ++ counted intervals.now) }
    ensures range { OnOk result (IsClock intervals.now) }
{
    words.push(u64::from(intervals.len()))?;
    for p in 0..intervals.len() {
        words.push(u64::from(intervals.get(p)))?;
    }
    Ok(())
}

fn put_clock(words: &mut Vec<u64>, clock: &Clock) -> Result<(), AllocError>
    ensures words { OnOk result (words.new.items ≡ words.old.items ++ counted clock.now) }
    ensures range { OnOk result (IsClock clock.now) }
{
    words.push(u64::from(clock.len()))?;
    put_numbers(words, &clock.padded()[..clock.len() as usize])
}

fn put_queue(words: &mut Vec<u64>, clocks: &[Clock]) -> Result<(), AllocError>
    ensures words { OnOk result (words.new.items ≡ words.old.items ++ queue_words clocks.now) }
    ensures range { OnOk result (IsQueue clocks.now) }
{
    words.push(clocks.len() as u64)?;
    for clock in clocks {
        put_clock(words, clock)?;
    }
    Ok(())
}

fn put_queues(words: &mut Vec<u64>, queues: &[Vec<Clock>]) -> Result<(), AllocError>
    ensures words { OnOk result
        (words.new.items ≡ words.old.items ++ queues_words (map (λ queue. queue.items) queues.now)) }
    ensures range { OnOk result (All IsQueue (map (λ queue. queue.items) queues.now)) }
{
    words.push(queues.len() as u64)?;
    for queue in queues {
        put_queue(words, queue)?;
    }
    Ok(())
}
