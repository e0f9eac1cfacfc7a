//! Why the words of a call ask no question.
use std::alloc::{AllocError, Global};
use trace_condition::ConditionWords;
use trace_questions::why_no_conditions;
use trace_text::AnswerFormat;
use trace_words::Options;

/// Why the options ask no question, in a line.
pub(crate) fn why_none(alloc: Global, options: &Options<'_>) -> Result<String, AllocError> {
    if let Some(line) = bad_form(alloc, options)? {
        return Ok(line);
    }
    why_no_conditions(alloc, &options.condition_words(), "--")
}

/// What is wrong with the words that say what is written, if anything is.
fn bad_form(alloc: Global, options: &Options<'_>) -> Result<Option<String>, AllocError> {
    if options.page && options.svg {
        let line = "--page and --svg are two answers: give one of them";
        return Ok(Some(String::from_str(alloc, line)?));
    }
    if let Some(line) = bad_order(options) {
        return Ok(Some(String::from_str(alloc, line)?));
    }
    if let Some(line) = bad_all(options) {
        return Ok(Some(String::from_str(alloc, line)?));
    }
    if let Some(line) = bad_definitely(options) {
        return Ok(Some(String::from_str(alloc, line)?));
    }
    if let Some(line) = bad_any_two(options) {
        return Ok(Some(String::from_str(alloc, line)?));
    }
    if let Some(line) = bad_explain(options) {
        return Ok(Some(String::from_str(alloc, line)?));
    }
    if let Some(line) = bad_json(options) {
        return Ok(Some(String::from_str(alloc, line)?));
    }
    if let Some(line) = options.spelled.misfit() {
        return Ok(Some(String::from_str(alloc, line)?));
    }
    if let Some(line) = bad_questions(options) {
        return Ok(Some(String::from_str(alloc, line)?));
    }
    if let Some(word) = options.events {
        if !options.page {
            let line = "--events is of a page: give --page too";
            return Ok(Some(String::from_str(alloc, line)?));
        }
        if !options.events_are_said() {
            return Ok(Some(format!(in alloc;
                "--events takes a number from 0 to 4294967295, and not '{word}'"
            )?));
        }
    }
    bad_columns(alloc, options)
}

/// What is wrong with `--order` beside the other words, if anything is.
fn bad_order(options: &Options<'_>) -> Option<&'static str> {
    if !options.order {
        return None;
    }
    if options.all || options.questions.is_some() {
        return Some(
            "--order is of one moment: leave out --all, and give the conditions in place of --questions",
        );
    }
    if options.page || options.svg {
        return Some("--order gives lines or JSON: a page plays the order by its button Play");
    }
    if options.definitely {
        return Some("--order is of a moment: leave out --definitely");
    }
    None
}

/// What is wrong with `--all` beside the other words, if anything is.
fn bad_all(options: &Options<'_>) -> Option<&'static str> {
    if !options.all {
        return None;
    }
    if options.questions.is_some() {
        return Some("--all is of one question: give its conditions in place of --questions");
    }
    if options.page || options.svg {
        return Some("--all gives several moments, as lines or JSON: leave out --page and --svg");
    }
    None
}

/// What is wrong with `--definitely` beside the other words, if anything is.
fn bad_definitely(options: &Options<'_>) -> Option<&'static str> {
    if !options.definitely {
        return None;
    }
    if options.asks_any_two() {
        return Some(
            "--definitely asks about hosts by their names: give the conditions of two in place of --any-two",
        );
    }
    if options.questions.is_some() {
        return Some(
            "--definitely is of one question: in the file of --questions write definitely = true",
        );
    }
    if options.all || options.explain {
        return Some("--definitely gives one answer: leave out --all and --explain");
    }
    if !options.ats.is_empty() {
        return Some(
            "--definitely is of states that last: give --while, or --from and --until, in place of --at",
        );
    }
    None
}

/// What is wrong with the words about any two hosts, beside one another and the other words, if anything is.
fn bad_any_two(options: &Options<'_>) -> Option<&'static str> {
    if !options.asks_any_two() {
        return None;
    }
    if !options.say_no_condition() {
        return Some("--any-two asks alone: leave out the conditions of hosts");
    }
    if options.questions.is_some() || options.all || options.explain {
        return Some(
            "--any-two gives one answer: leave out --questions and --all; for --explain name the two hosts",
        );
    }
    match options.pair_words() {
        None if options.any_two.is_some() => Some(
            "--any-two and --any-two-from are two questions: ask one of them",
        ),
        None => Some("--any-two-from and --any-two-until need each other"),
        Some(_) if options.names_no_hosts() => Some(
            "--any-two and --any-two-from take HOSTS=REGEX",
        ),
        Some(_) => None,
    }
}

/// What is wrong with `--explain` beside the other words, if anything is.
fn bad_explain(options: &Options<'_>) -> Option<&'static str> {
    if !options.explain {
        return None;
    }
    if options.all {
        return Some("--explain says why one moment stands: leave out --all");
    }
    if options.svg {
        return Some("--explain says why in words: give --page in place of --svg");
    }
    None
}

/// What is wrong with `--json` beside the other words, if anything is.
fn bad_json(options: &Options<'_>) -> Option<&'static str> {
    if options.format == AnswerFormat::Json && (options.page || options.svg) {
        return Some("--json and a page or a picture are two answers: give one of them");
    }
    None
}

/// What is wrong with `--questions` beside the other words, if anything is.
fn bad_questions(options: &Options<'_>) -> Option<&'static str> {
    if options.questions.is_none() {
        return match options.question {
            Some(_) => Some("--question is of a file of questions: give --questions too"),
            None => None,
        };
    }
    if !options.say_no_condition() {
        return Some("--questions asks alone: put the conditions into its file");
    }
    if !options.are_answers_alone() && options.question.is_none() {
        return Some(
            "--questions gives several answers: for --page and --svg name one of them by --question",
        );
    }
    if !options.is_input_read_once() {
        return Some("--questions - reads standard input: name the file of the log");
    }
    None
}

/// What is wrong with the word of `--columns`, if anything is.
fn bad_columns(alloc: Global, options: &Options<'_>) -> Result<Option<String>, AllocError> {
    let Some(word) = options.columns else {
        return Ok(None);
    };
    if !options.svg {
        let line = "--columns is of a picture: give --svg too";
        return Ok(Some(String::from_str(alloc, line)?));
    }
    if options.columns_are_said() {
        return Ok(None);
    }
    Ok(Some(format!(in alloc; "--columns takes a number from 10 to 1000, and not '{word}'")?))
}
