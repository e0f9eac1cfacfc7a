//! Words, read as what a checker holds. Each reader says what it gives of words that are spelled as they ought to be;
//! of others it gives anything.
ghost use Rattle.std.specs.Prelude.{◌≡◌, ℕ, Bool, ◌^◌, ◌<◌, ◌≤◌, ◌++◌, ◌∷◌, All, IfOk, List, Option, IfSome};
ghost use Rattle.std.specs.Prelude.{drop, length, map, take};
ghost use Rattle.wcp_clock.specs.Limits.{most_processes};
ghost use Rattle.wcp_clock.specs.ProcessNumbers.{AreProcessNumbers, NumberSet};
ghost use Rattle.wcp_queue.specs.Checker.{CheckerState, IsSoundChecker};
ghost use Rattle.wcp_queue.specs.Parts.{state_of};
ghost use Rattle.wcp_saved.specs.Spelling.{flags, counted, cut_words, marks_of, queue_words, queues_words};
ghost use Rattle.wcp_saved.specs.Spelling.{words_of, IsClock, IsInRange, IsQueue};

use std::alloc::{AllocError, Global};
use wcp_clock::{Clock, MAX_PROCS, PerProcess};
use wcp_model::Watched;
use wcp_queue::CheckerParts;

/// What a checker holds, of its words. `Err` where memory runs out.
pub fn parts_of(alloc: Global, words: &[u64]) -> Result<CheckerParts, AllocError>
    ensures { (checker : CheckerState) → IsSoundChecker checker → IsInRange checker → words.now ≡ words_of checker
        → IfOk result (λ parts. state_of parts ≡ checker) }
{
    let (_magic, rest) = take_word(words);
    let (_version, rest) = take_word(rest);
    let (processes, rest) = take_word(rest);
    let (tests, rest) = take_word(rest);
    let (starved, rest) = take_word(rest);
    let (marks, rest) = take_flags(rest);
    let (taken, rest) = take_words(rest);
    let (closed, rest) = take_flags(rest);
    let (lost, rest) = take_flags(rest);
    let (floor, rest) = take_numbers(rest);
    let (heads, rest) = take_flags(rest);
    let (found, rest) = take_cut(rest);
    let queues = queues_of(alloc, rest)?;
    Ok(CheckerParts {
        processes: number_of(processes),
        watched: watched_of(&marks),
        queues,
        floor,
        heads,
        tests,
        taken,
        closed,
        lost,
        found,
        starved: starved == 1,
    })
}

/// The low 32 bits of a word.
pub fn number_of(word: u64) -> u32
    ensures { word < 2 ^ 32 → result ≡ word }
{
    (word % (1 << 32)) as u32
}

/// The first word, and those behind it; 0 where there is none.
pub fn take_word(words: &[u64]) -> (u64, &[u64])
    ensures { (word : ℕ) (rest : List ℕ) → words.now ≡ word ∷ rest → (result.0 ≡ word) × (result.1.now ≡ rest) }
{
    match words {
        [word, rest @ ..] => (*word, rest),
        [] => (0, words),
    }
}

/// The first `count` words, and those behind them; all words where there are fewer.
pub fn take_first(words: &[u64], count: usize) -> (&[u64], &[u64])
    ensures value { (front rest : List ℕ) → words.now ≡ front ++ rest → length front ≡ count
        → (result.0.now ≡ front) × (result.1.now ≡ rest) }
    ensures few { length result.0.now ≤ count }
{
    words.split_at(count.min(words.len()))
}

/// A word for each of 16 processes.
fn take_words(words: &[u64]) -> ([u64; MAX_PROCS], &[u64])
    ensures { (front rest : List ℕ) → words.now ≡ front ++ rest → length front ≡ most_processes
        → (result.0 ≡ front) × (result.1.now ≡ rest) }
{
    let (front, rest) = take_first(words, MAX_PROCS);
    let mut each = [0; MAX_PROCS];
    each[..front.len()].copy_from_slice(front);
    (each, rest)
}

/// A flag for each of 16 processes.
fn take_flags(words: &[u64]) -> ([bool; MAX_PROCS], &[u64])
    ensures { (marks : List Bool) (rest : List ℕ) → words.now ≡ flags marks ++ rest → length marks ≡ most_processes
        → (result.0 ≡ marks) × (result.1.now ≡ rest) }
{
    let (front, rest) = take_words(words);
    (marks_of(&front), rest)
}

/// The flags of these words.
fn marks_of(words: &[u64; MAX_PROCS]) -> [bool; MAX_PROCS]
    ensures { (marks : List Bool) → words.now ≡ flags marks → result ≡ marks }
{
    let mut marks = [false; MAX_PROCS];
    for p in 0..MAX_PROCS {
        marks[p] = words[p] == 1;
    }
    marks
}

/// A number of 32 bits for each of 16 processes.
fn take_numbers(words: &[u64]) -> ([u32; MAX_PROCS], &[u64])
    ensures { (front rest : List ℕ) → words.now ≡ front ++ rest → length front ≡ most_processes
        → All (λ number. number < 2 ^ 32) front → (result.0 ≡ front) × (result.1.now ≡ rest) }
{
    let (front, rest) = take_words(words);
    (numbers_of(&front), rest)
}

/// The low 32 bits of each word, and 0 in each place behind the last.
fn numbers_of(words: &[u64]) -> [u32; MAX_PROCS]
    requires { length words.now ≤ most_processes }
    ensures value { All (λ word. word < 2 ^ 32) words.now → take (length words.now) result ≡ words.now }
    ensures behind { All (λ number. number ≡ 0) (drop (length words.now) result) }
{
    let mut numbers = [0; MAX_PROCS];
    for p in 0..words.len() {
        numbers[p] = number_of(words[p]);
    }
    numbers
}

/// The processes that are marked.
fn watched_of(marks: &[bool; MAX_PROCS]) -> Watched
    ensures { (watched : NumberSet) → AreProcessNumbers watched → marks.now ≡ marks_of watched → result ≡ watched }
{
    let mut watched = Watched::none();
    for p in 0..MAX_PROCS {
        if marks[p] {
            watched = watched.with(p as u32);
        }
    }
    watched
}

/// Up to 16 numbers of 32 bits behind their count: the numbers, with 0 in each place behind the last, the count,
/// and the words behind them.
fn take_counted(words: &[u64]) -> ([u32; MAX_PROCS], u32, &[u64])
    ensures value { (values rest : List ℕ) → length values ≤ most_processes → All (λ number. number < 2 ^ 32) values
        → words.now ≡ counted values ++ rest
        → (result.1 ≡ length values) × (take result.1 result.0 ≡ values) × (result.2.now ≡ rest) }
    ensures few { result.1 ≤ most_processes }
    ensures behind { All (λ number. number ≡ 0) (drop result.1 result.0) }
{
    let (count, rest) = take_word(words);
    let (front, rest) = take_first(rest, count.min(MAX_PROCS as u64) as usize);
    (numbers_of(front), front.len() as u32, rest)
}

/// A cut, or that none was found.
fn take_cut(words: &[u64]) -> (Option<PerProcess<u32>>, &[u64])
    ensures { (found : Option (List ℕ)) (rest : List ℕ) → IfSome found IsClock → words.now ≡ cut_words found ++ rest
        → (result.0 ≡ found) × (result.1.now ≡ rest) }
{
    let (numbers, count, rest) = take_counted(words);
    if count == 0 {
        return (None, rest);
    }
    (Some(PerProcess::new(&numbers[..count as usize])), rest)
}

/// A clock.
fn take_clock(words: &[u64]) -> (Clock, &[u64])
    ensures { (clock rest : List ℕ) → IsClock clock → words.now ≡ counted clock ++ rest
        → (result.0 ≡ clock) × (result.1.now ≡ rest) }
{
    let (numbers, count, rest) = take_counted(words);
    if count == 0 {
        return (Clock::new(1), rest);
    }
    (Clock::from_padded(&numbers, count), rest)
}

/// The clocks of a queue. `Err` where memory runs out.
fn take_queue(alloc: Global, words: &[u64]) -> Result<(Vec<Clock>, &[u64]), AllocError>
    ensures { (queue : List (List ℕ)) (after : List ℕ) → IsQueue queue → words.now ≡ queue_words queue ++ after
        → IfOk result (λ taken. (taken.0.items ≡ queue) × (taken.1.now ≡ after)) }
{
    let (count, first) = take_word(words);
    let count = count.min(first.len() as u64);
    let mut clocks = Vec::new(alloc);
    let mut rest = first;
    for _ in 0..count {
        let (clock, after) = take_clock(rest);
        clocks.push(clock)?;
        rest = after;
    }
    Ok((clocks, rest))
}

/// The queues that the words spell. `Err` where memory runs out.
fn queues_of(alloc: Global, words: &[u64]) -> Result<Vec<Vec<Clock>>, AllocError>
    ensures { (queues : List (List (List ℕ))) → All IsQueue queues → words.now ≡ queues_words queues
        → IfOk result (λ made. map (λ queue. queue.items) made.items ≡ queues) }
{
    let (count, first) = take_word(words);
    let count = count.min(first.len() as u64);
    let mut queues = Vec::new(alloc);
    let mut rest = first;
    for _ in 0..count {
        let (queue, after) = take_queue(alloc, rest)?;
        queues.push(queue)?;
        rest = after;
    }
    Ok(queues)
}
