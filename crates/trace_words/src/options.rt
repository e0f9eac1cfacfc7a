ghost use Rattle.std.specs.Prelude.{◌≡◌, is_some, map, option_map, codes, Some, IfOk};
ghost use Rattle.clap.specs.Words.{first_of, found_of, kind_of, rows_of};
ghost use Rattle.trace_words.specs.Options.{first_line_at, format_at, last_line_at, layout_at, layout_named};
ghost use Rattle.trace_words.specs.Options.{form_of, layout_said, says_spelling};
ghost use Rattle.trace_words.specs.Options.{are_in_order, form_at, form_with, line_said, flag_at, values_at, seen_texts};
ghost use Rattle.trace_words.specs.Spelled.{AreSpelledIn};
ghost use Rattle.trace_condition.specs.Sayings.{seen_words};
ghost use Rattle.trace_words.specs.Fitting.{asked_by};
ghost use Rattle.trace_words.specs.Requests.{IsRequestOf, IsTraceOf, IsRefusalOf, asks_by_word, spelled};

use crate::command::command;
use crate::line_number::line_said;
use crate::spelling::SpellingWords;
use clap::error::ErrorKind;
use clap::{ArgMatches, Error};
use std::alloc::{AllocError, Global};
use std::convert::AsStr;
use trace_condition::ConditionWords;
use trace_log::{Form, LogLayout};
use trace_text::AnswerFormat;
use wcp_words::{InputSource, usage_line};

/// What the words ask for.
#[derive(Debug, Drop)]
pub enum TraceRequest<'a> {
    /// To watch a log.
    Trace(Options<'a>),
    /// This help text.
    Help(String),
    /// The program's version.
    Version,
    /// Something that the program doesn't know. The line says why.
    Unknown(String),
}

/// The values of the options: words HOST=REGEX in the order given for each, the form of the log, and the names of the
/// files that it stands in.
#[derive(Debug, Drop)]
pub struct Options<'a> {
    pub whiles: Vec<&'a str>,
    pub froms: Vec<&'a str>,
    pub untils: Vec<&'a str>,
    pub ats: Vec<&'a str>,
    /// The words HOSTS=REGEX that ask about any two hosts, and the end of a state, where they are given.
    pub any_two: Option<&'a str>,
    pub any_two_from: Option<&'a str>,
    pub any_two_until: Option<&'a str>,
    /// The name of the file that asks several questions, where one is given.
    pub questions: Option<&'a str>,
    /// The name of the one question of it that is asked, where one is given.
    pub question: Option<&'a str>,
    /// Whether each moment is asked for.
    pub all: bool,
    /// Whether it is asked if the conditions must have held at once.
    pub definitely: bool,
    /// The form in which the log is read, after it was said anew where it is spelled otherwise.
    pub form: Form,
    /// How the log is spelled, as the words say it.
    pub spelled: SpellingWords<'a>,
    /// How answers are printed.
    pub format: AnswerFormat,
    /// Whether it is asked why the answer stands.
    pub explain: bool,
    /// Whether the events that lead to the moment are asked for, in an order.
    pub order: bool,
    /// Whether a page is asked for.
    pub page: bool,
    /// The word that says how many events the page shows, where one is given.
    pub events: Option<&'a str>,
    /// Whether a picture is asked for.
    pub svg: bool,
    /// The word that says how many columns the picture has at most, where one is given.
    pub columns: Option<&'a str>,
    /// The names of the files that the log stands in, one behind the other.
    pub files: Vec<&'a str>,
}

impl<'a> TraceRequest<'a> {
    /// What is read for the answer, one behind the other. Nothing is where the words ask no question at all.
    pub fn sources(&self, alloc: Global) -> Result<Vec<InputSource<'a>>, AllocError> {
        let mut sources = Vec::new(alloc);
        let TraceRequest::Trace(options) = self else {
            return Ok(sources);
        };
        if !options.ask_something() || !options.are_fit() {
            return Ok(sources);
        }
        if options.files.is_empty() {
            sources.push(InputSource::StandardInput)?;
        }
        for name in &options.files {
            sources.push(InputSource::named_by(Some(*name)))?;
        }
        Ok(sources)
    }

    /// Where the questions are read, if a file asks them.
    pub fn questions(&self) -> InputSource<'a> {
        match self {
            TraceRequest::Trace(options) if options.questions.is_some() && options.are_fit() => {
                InputSource::named_by(options.questions)
            }
            _ => InputSource::Nowhere,
        }
    }
}

impl<'a> Options<'a> {
    /// The words that say conditions.
    pub fn condition_words(&self) -> ConditionWords<'_>
        ensures { seen_words result ≡ asked_by self.now }
    {
        ConditionWords {
            whiles: self.whiles.as_slice(),
            froms: self.froms.as_slice(),
            untils: self.untils.as_slice(),
            ats: self.ats.as_slice(),
        }
    }

    /// Whether a word says the end of a state.
    pub fn has_ends(&self) -> bool {
        !self.untils.is_empty() || self.any_two_until.is_some()
    }

    /// Whether a file asks questions, or any word says a condition, or a part of one.
    fn ask_something(&self) -> bool {
        self.questions.is_some() || self.asks_any_two() || !self.say_no_condition()
    }
}

/// What the words ask for, of which the first is the program's name.
pub fn read_options<'a, S: AsStr>(
    alloc: Global,
    words: &'a [S],
) -> Result<TraceRequest<'a>, AllocError>
    ensures { IfOk result (IsRequestOf (spelled (map S.text words.entry.now))) }
{
    if asks_by_word(words) {
        request_of(alloc, HELP_WORDS)
    } else {
        request_of(alloc, words)
    }
}

/// The words of a call for help.
const HELP_WORDS: &[&str] = &["wcptrace", "--help"];

/// Whether the word `help` stands alone after the program's name.
fn asks_by_word<S: AsStr>(words: &[S]) -> bool
    ensures { result ≡ asks_by_word (map S.text words.now) }
{
    words.len() == 2 && words[1].as_str() == "help"
}

/// What words ask for by options.
fn request_of<'a, S: AsStr>(alloc: Global, words: &'a [S]) -> Result<TraceRequest<'a>, AllocError>
    ensures { IfOk result (IsRequestOf (map S.text words.entry.now)) }
{
    match command(alloc)?.try_get_matches_from(words) {
        Ok(matches) => trace_of(alloc, &matches),
        Err(error) => request_without_matches(alloc, &error),
    }
}

/// The trace that the matches ask for, if the form is known.
fn trace_of<'a>(alloc: Global, matches: &ArgMatches<'a>) -> Result<TraceRequest<'a>, AllocError>
    ensures { IfOk result (IsTraceOf (rows_of (found_of matches.now))) }
{
    let Some(form) = form_of(matches) else {
        return Ok(TraceRequest::Unknown(no_form(alloc, matches)?));
    };
    let whiles = values_of(alloc, matches, "while")?;
    let froms = values_of(alloc, matches, "from")?;
    let untils = values_of(alloc, matches, "until")?;
    let ats = values_of(alloc, matches, "at")?;
    let files = values_of(alloc, matches, "file")?;
    Ok(TraceRequest::Trace(Options {
        whiles,
        froms,
        untils,
        ats,
        any_two: word_of(matches, "any-two"),
        any_two_from: word_of(matches, "any-two-from"),
        any_two_until: word_of(matches, "any-two-until"),
        questions: word_of(matches, "questions"),
        question: word_of(matches, "question"),
        all: flag_of(matches, "all"),
        definitely: flag_of(matches, "definitely"),
        form,
        spelled: spelling_of(matches),
        format: format_of(matches),
        explain: flag_of(matches, "explain"),
        order: flag_of(matches, "order"),
        page: flag_of(matches, "page"),
        events: word_of(matches, "events"),
        svg: flag_of(matches, "svg"),
        columns: word_of(matches, "columns"),
        files,
    }))
}

/// Why the words say no form of a log and no lines of it, in a line.
fn no_form(alloc: Global, matches: &ArgMatches<'_>) -> Result<String, AllocError> {
    if layout_of(matches).is_none() {
        let name = matches.get_str("form").unwrap_or("");
        if says_spelling(matches) {
            return format!(in alloc;
                "--form {name} says how events are spelled, and so do --parser and the names of members"
            );
        }
        return format!(in alloc;
            "there is no form '{name}'; the forms are lines, shiviz, shiviz-reversed and messages"
        );
    }
    for option in ["from-line", "to-line"] {
        if let Some(word) = matches.get_str(option)
            && line_said(word).is_none()
        {
            return format!(in alloc;
                "--{option} takes the number of a line, from 1, and not '{word}'"
            );
        }
    }
    let first = matches.get_str("from-line").unwrap_or("");
    let last = matches.get_str("to-line").unwrap_or("");
    format!(in alloc; "--from-line {first} is behind --to-line {last}")
}

/// How answers are printed.
fn format_of(matches: &ArgMatches<'_>) -> AnswerFormat
    ensures { result ≡ format_at (rows_of (found_of matches.now)) }
{
    if flag_of(matches, "json") {
        AnswerFormat::Json
    } else {
        AnswerFormat::Lines
    }
}

/// Whether a flag is given.
fn flag_of(matches: &ArgMatches<'_>, name: &str) -> bool
    ensures { result ≡ flag_at name.now (rows_of (found_of matches.now)) }
{
    match matches.get_str(name) {
        Some(text) => text == "true",
        None => false,
    }
}

/// The word of an option, if one is given.
fn word_of<'a>(matches: &ArgMatches<'a>, name: &str) -> Option<&'a str>
    ensures { option_map (λ word. word.now) result ≡ first_of name.now (rows_of (found_of matches.now)) }
{
    matches.get_str(name)
}

/// The values of an option, in the order given.
fn values_of<'a>(
    alloc: Global,
    matches: &ArgMatches<'a>,
    name: &str,
) -> Result<Vec<&'a str>, AllocError>
    ensures { IfOk result (λ values. seen_texts values.items
        ≡ values_at name.now (rows_of (found_of matches.now))) }
{
    match matches.get_strs(name) {
        Some(values) => Vec::from_slice(alloc, values),
        None => Ok(Vec::new(alloc)),
    }
}

/// The form of the log with the lines that are read, if it's known and they are numbers in order.
fn form_of(matches: &ArgMatches<'_>) -> Option<Form>
    ensures { result ≡ form_at (rows_of (found_of matches.now)) }
{
    form_with(
        layout_of(matches),
        first_line_of(matches),
        last_line_of(matches),
        flag_of(matches, "check") || flag_of(matches, "definitely"),
    )
}

/// The form with these lines, if all of them are said and in order.
fn form_with(
    layout: Option<LogLayout>,
    first: Option<u64>,
    last: Option<Option<u64>>,
    check: bool,
) -> Option<Form>
    ensures { result ≡ form_with layout first last check }
{
    let layout = layout?;
    let first = first?;
    let last = last?;
    if !are_in_order(first, last) {
        return None;
    }
    Some(form_of_lines(layout, first, last, check))
}

/// The form of a log with these lines. Of numbered lines all are read.
fn form_of_lines(layout: LogLayout, first: u64, last: Option<u64>, check: bool) -> Form
    ensures { result ≡ form_of layout first last check }
{
    match layout {
        LogLayout::Numbered => Form {
            layout,
            first: 1,
            last: None,
            check,
        },
        LogLayout::Lines | LogLayout::Shiviz | LogLayout::ShivizReversed => Form {
            layout,
            first,
            last,
            check,
        },
    }
}

/// The layout in which the log is read, if it's known.
fn layout_of(matches: &ArgMatches<'_>) -> Option<LogLayout>
    ensures { result ≡ layout_at (rows_of (found_of matches.now)) }
{
    layout_said(word_of(matches, "form"), says_spelling(matches))
}

/// The layout in which a log is read whose form has this name, if it's known. Its events may be spelled otherwise.
fn layout_said(name: Option<&str>, says_spelling: bool) -> Option<LogLayout>
    ensures { result ≡ layout_said (option_map (λ name. name.now) name.entry) says_spelling }
{
    match (name, says_spelling) {
        (None, false) => Some(LogLayout::Shiviz),
        (None, true) => Some(LogLayout::Numbered),
        (Some(name), false) => layout_named(name),
        (Some(name), true) => match name {
            "lines" => Some(LogLayout::Numbered),
            _ => None,
        },
    }
}

/// Whether the words say how events are spelled: by an expression, or by the names of members.
fn says_spelling(matches: &ArgMatches<'_>) -> bool
    ensures { result ≡ says_spelling (rows_of (found_of matches.now)) }
{
    is_given(matches, "parser")
        || is_given(matches, "host-field")
        || is_given(matches, "clock-field")
        || is_given(matches, "event-field")
}

/// Whether an option is given.
fn is_given(matches: &ArgMatches<'_>, name: &str) -> bool
    ensures { result ≡ is_some (first_of name.now (rows_of (found_of matches.now))) }
{
    match word_of(matches, name) {
        Some(_) => true,
        None => false,
    }
}

/// How the log is spelled, as the words say it.
fn spelling_of<'a>(matches: &ArgMatches<'a>) -> SpellingWords<'a>
    ensures { AreSpelledIn (rows_of (found_of matches.now)) result }
{
    SpellingWords {
        form: word_of(matches, "form"),
        first: first_line_of(matches).unwrap_or(1),
        last: last_line_of(matches).unwrap_or(None),
        is_strict: flag_of(matches, "strict"),
        assumes_sent: flag_of(matches, "assume-sent"),
        parser: word_of(matches, "parser"),
        event_lines: word_of(matches, "event-lines"),
        skips: flag_of(matches, "skip-unmatched"),
        host: word_of(matches, "host-field"),
        clock: word_of(matches, "clock-field"),
        event: word_of(matches, "event-field"),
    }
}

/// The form with this name.
fn layout_named(name: &str) -> Option<LogLayout>
    ensures { result ≡ layout_named name.now }
{
    match name {
        "lines" => Some(LogLayout::Lines),
        "shiviz" => Some(LogLayout::Shiviz),
        "shiviz-reversed" => Some(LogLayout::ShivizReversed),
        "messages" => Some(LogLayout::Numbered),
        _ => None,
    }
}

/// The first line that is read, if the word is one.
fn first_line_of(matches: &ArgMatches<'_>) -> Option<u64>
    ensures { result ≡ first_line_at (rows_of (found_of matches.now)) }
{
    match matches.get_str("from-line") {
        Some(word) => line_said(word),
        None => Some(1),
    }
}

/// The last line that is read, where one is said, if the word is one.
fn last_line_of(matches: &ArgMatches<'_>) -> Option<Option<u64>>
    ensures { result ≡ last_line_at (rows_of (found_of matches.now)) }
{
    match matches.get_str("to-line") {
        Some(word) => last_line_said(word),
        None => Some(None),
    }
}

/// The last line that a word says, if it does.
fn last_line_said(word: &str) -> Option<Option<u64>>
    ensures { result ≡ option_map (λ line. Some line) (line_said word.now) }
{
    let line = line_said(word)?;
    Some(Some(line))
}

/// Whether the first line isn't behind the last.
fn are_in_order(first: u64, last: Option<u64>) -> bool
    ensures { result ≡ are_in_order first last }
{
    match last {
        Some(last) => first <= last,
        None => true,
    }
}

/// What the words ask for where clap gave no matches but this error.
fn request_without_matches<'a>(alloc: Global, error: &Error) -> Result<TraceRequest<'a>, AllocError>
    ensures { IfOk result (IsRefusalOf (kind_of error.now)) }
{
    match error.kind() {
        ErrorKind::DisplayHelp => Ok(TraceRequest::Help(error.to_string(alloc)?)),
        ErrorKind::DisplayVersion => Ok(TraceRequest::Version),
        ErrorKind::OutOfMemory => Err(AllocError),
        _ => Ok(TraceRequest::Unknown(usage_line(alloc, error)?)),
    }
}
