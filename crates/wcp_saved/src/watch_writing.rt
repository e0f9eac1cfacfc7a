//! A watch, as words.
ghost use Rattle.std.specs.Prelude.{◌≡◌, ◌++◌, All, IfOk, OnOk, map};
ghost use Rattle.wcp_queue.specs.Parts.{state_of};
ghost use Rattle.wcp_saved.specs.Watches.{question_words, questions_words, tag_words, tags_words, watch_of};
ghost use Rattle.wcp_saved.specs.Watches.{watch_words, IsQuestionInRange, IsTag, IsWatchInRange};

use crate::watch::{SavedWatch, Tagged};
use crate::writing::words_of;
use std::alloc::{AllocError, Global};
use wcp_queue::CheckerParts;

/// The first word of a saved watch, whose bytes are the letters "wcpwatch".
const MAGIC: u64 = 7_521_983_764_603_364_215;

/// The version of the spelling.
const VERSION: u64 = 1;

/// The words of a watch. `Err` where memory runs out.
pub fn watch_words_of(alloc: Global, parts: &SavedWatch) -> Result<Vec<u64>, AllocError>
    ensures spelled { IfOk result (λ words. words.items ≡ watch_words (watch_of parts.now)) }
    ensures range { IfOk result (λ _. IsWatchInRange (watch_of parts.now)) }
{
    let mut words = Vec::new(alloc);
    words.push(MAGIC)?;
    words.push(VERSION)?;
    words.push(parts.watch)?;
    words.push(u64::from(parts.panel))?;
    put_questions(alloc, &mut words, &parts.questions)?;
    put_tags(&mut words, &parts.tags)?;
    Ok(words)
}

fn put_questions(
    alloc: Global,
    words: &mut Vec<u64>,
    questions: &[CheckerParts],
) -> Result<(), AllocError>
    ensures words { OnOk result
        (words.new.items ≡ words.old.items ++ questions_words (map state_of questions.now)) }
    ensures range { OnOk result (All IsQuestionInRange (map state_of questions.now)) }
{
    words.push(questions.len() as u64)?;
    for parts in questions {
        put_question(alloc, words, parts)?;
    }
    Ok(())
}

fn put_question(alloc: Global, words: &mut Vec<u64>, parts: &CheckerParts) -> Result<(), AllocError>
    ensures words { OnOk result (words.new.items ≡ words.old.items ++ question_words (state_of parts.now)) }
    ensures range { OnOk result (IsQuestionInRange (state_of parts.now)) }
{
    let own = words_of(alloc, parts)?;
    words.push(own.len() as u64)?;
    words.extend_from_slice(&own)?;
    Ok(())
}

fn put_tags(words: &mut Vec<u64>, tags: &[Tagged]) -> Result<(), AllocError>
    ensures words { OnOk result (words.new.items ≡ words.old.items ++ tags_words tags.now) }
    ensures range { OnOk result (All IsTag tags.now) }
{
    words.push(tags.len() as u64)?;
    for tagged in tags {
        put_tag(words, tagged)?;
    }
    Ok(())
}

fn put_tag(words: &mut Vec<u64>, tagged: &Tagged) -> Result<(), AllocError>
    ensures words { OnOk result (words.new.items ≡ words.old.items ++ tag_words tagged.now) }
    ensures range { OnOk result (IsTag tagged.now) }
{
    words.push(u64::from(tagged.process))?;
    words.push(u64::from(tagged.interval))?;
    words.push(tagged.tag)?;
    Ok(())
}
