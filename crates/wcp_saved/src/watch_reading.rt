//! Words, read as a watch. Each reader says what it gives of words that are spelled as they ought to be; of others
//! it gives anything.
ghost use Rattle.std.specs.Prelude.{◌≡◌, ◌++◌, All, IfOk, List, ℕ, map};
ghost use Rattle.wcp_queue.specs.Checker.{CheckerState, IsSoundChecker};
ghost use Rattle.wcp_queue.specs.Parts.{state_of};
ghost use Rattle.wcp_saved.specs.Watches.{question_words, questions_words, tag_words, tags_words, watch_of};
ghost use Rattle.wcp_saved.specs.Watches.{watch_words, IsQuestionInRange, IsTag, IsWatchInRange, WatchState};
ghost use Rattle.wcp_saved.specs.declared.watch.Tagged.{Tagged as Noted};

use crate::reading::{number_of, parts_of, take_first, take_word};
use crate::watch::{SavedWatch, Tagged};
use std::alloc::{AllocError, Global};
use wcp_queue::CheckerParts;

/// A question has as many words or more, so a count of questions that are not there costs little.
const LEAST_WORDS: u64 = 104;

/// The watch of these words. `Err` where memory runs out.
pub fn watch_parts_of(alloc: Global, words: &[u64]) -> Result<SavedWatch, AllocError>
    ensures { (watch : WatchState) → All IsSoundChecker watch.questions → IsWatchInRange watch
        → words.now ≡ watch_words watch → IfOk result (λ parts. watch_of parts ≡ watch) }
{
    let (_magic, rest) = take_word(words);
    let (_version, rest) = take_word(rest);
    let (watch, rest) = take_word(rest);
    let (panel, rest) = take_word(rest);
    let (questions, rest) = take_questions(alloc, rest)?;
    let tags = tags_of(alloc, rest)?;
    Ok(SavedWatch {
        watch,
        panel: panel == 1,
        questions,
        tags,
    })
}

/// The questions, and the words behind them. `Err` where memory runs out.
fn take_questions(alloc: Global, words: &[u64]) -> Result<(Vec<CheckerParts>, &[u64]), AllocError>
    ensures { (questions : List CheckerState) (after : List ℕ) → All IsSoundChecker questions
        → All IsQuestionInRange questions → words.now ≡ questions_words questions ++ after
        → IfOk result (λ taken. (map state_of taken.0.items ≡ questions) × (taken.1.now ≡ after)) }
{
    let (count, first) = take_word(words);
    let count = count.min(first.len() as u64 / LEAST_WORDS);
    let mut questions = Vec::new(alloc);
    let mut rest = first;
    for _ in 0..count {
        let (parts, after) = take_question(alloc, rest)?;
        questions.push(parts)?;
        rest = after;
    }
    Ok((questions, rest))
}

/// A question, and the words behind it. `Err` where memory runs out.
fn take_question(alloc: Global, words: &[u64]) -> Result<(CheckerParts, &[u64]), AllocError>
    ensures { (checker : CheckerState) (after : List ℕ) → IsSoundChecker checker → IsQuestionInRange checker
        → words.now ≡ question_words checker ++ after
        → IfOk result (λ taken. (state_of taken.0 ≡ checker) × (taken.1.now ≡ after)) }
{
    let (count, rest) = take_word(words);
    let count = count.min(rest.len() as u64);
    let (own, after) = take_first(rest, count as usize);
    Ok((parts_of(alloc, own)?, after))
}

/// The tags that the words spell. `Err` where memory runs out.
fn tags_of(alloc: Global, words: &[u64]) -> Result<Vec<Tagged>, AllocError>
    ensures { (tags : List Noted) → All IsTag tags → words.now ≡ tags_words tags
        → IfOk result (λ made. made.items ≡ tags) }
{
    let (count, first) = take_word(words);
    let count = count.min(first.len() as u64);
    let mut tags = Vec::new(alloc);
    let mut rest = first;
    for _ in 0..count {
        let (tagged, after) = take_tag(rest);
        tags.push(tagged)?;
        rest = after;
    }
    Ok(tags)
}

/// A tag, and the words behind it.
fn take_tag(words: &[u64]) -> (Tagged, &[u64])
    ensures { (tagged : Noted) (after : List ℕ) → IsTag tagged → words.now ≡ tag_words tagged ++ after
        → (result.0 ≡ tagged) × (result.1.now ≡ after) }
{
    let (process, rest) = take_word(words);
    let (interval, rest) = take_word(rest);
    let (tag, rest) = take_word(rest);
    let tagged = Tagged {
        process: number_of(process),
        interval: number_of(interval),
        tag,
    };
    (tagged, rest)
}
