//! The command line of the program.
ghost use Rattle.std.specs.Prelude.{◌≡◌, false, IfOk};
ghost use Rattle.clap.specs.Words.{app_of, rule_of};
ghost use Rattle.trace_words.specs.Options.{answer_rules, condition_option, file_argument, flag_option, log_rules};
ghost use Rattle.trace_words.specs.Options.{named, program, question_rules, spelling_rules, with_rules, word_option};

use crate::help;
use clap::{Arg, ArgAction, Command};
use std::alloc::{AllocError, Global};

/// The command line of the program.
pub(crate) fn command<'a>(alloc: Global) -> Result<Command<'a>, AllocError>
    ensures { IfOk result (λ command. app_of command ≡ program) }
{
    let command = with_questions(alloc, named(alloc))?;
    let command = with_log(alloc, command)?;
    let command = with_spelling(alloc, command)?;
    let command = with_answers(alloc, command)?;
    command.arg(file_argument(alloc))
}

/// Adds the options that ask questions.
fn with_questions<'a>(alloc: Global, command: Command<'a>) -> Result<Command<'a>, AllocError>
    ensures { IfOk result (λ asking. app_of asking ≡ with_rules question_rules (app_of command.entry)) }
{
    command
        .arg(condition_option(alloc, "while", help::WHILE))?
        .arg(condition_option(alloc, "from", help::FROM))?
        .arg(condition_option(alloc, "until", help::UNTIL))?
        .arg(condition_option(alloc, "at", help::AT))?
        .arg(word_option(alloc, "any-two", "HOSTS=REGEX", help::ANY_TWO))?
        .arg(word_option(alloc, "any-two-from", "HOSTS=REGEX", help::ANY_TWO_FROM))?
        .arg(word_option(alloc, "any-two-until", "REGEX", help::ANY_TWO_UNTIL))?
        .arg(word_option(alloc, "questions", "FILE", help::QUESTIONS))?
        .arg(word_option(alloc, "question", "NAME", help::QUESTION))?
        .arg(flag_option(alloc, "all", help::ALL))?
        .arg(flag_option(alloc, "definitely", help::DEFINITELY))
}

/// Adds the options that say how the log is read.
fn with_log<'a>(alloc: Global, command: Command<'a>) -> Result<Command<'a>, AllocError>
    ensures { IfOk result (λ reading. app_of reading ≡ with_rules log_rules (app_of command.entry)) }
{
    command
        .arg(word_option(alloc, "form", "FORM", help::FORM))?
        .arg(flag_option(alloc, "strict", help::STRICT))?
        .arg(flag_option(alloc, "assume-sent", help::ASSUME_SENT))?
        .arg(flag_option(alloc, "check", help::CHECK))?
        .arg(word_option(alloc, "from-line", "N", help::FROM_LINE))?
        .arg(word_option(alloc, "to-line", "N", help::TO_LINE))
}

/// Adds the options that say how events are spelled.
fn with_spelling<'a>(alloc: Global, command: Command<'a>) -> Result<Command<'a>, AllocError>
    ensures { IfOk result (λ spelling. app_of spelling ≡ with_rules spelling_rules (app_of command.entry)) }
{
    command
        .arg(word_option(alloc, "parser", "REGEX", help::PARSER))?
        .arg(word_option(alloc, "event-lines", "N", help::EVENT_LINES))?
        .arg(flag_option(alloc, "skip-unmatched", help::SKIP_UNMATCHED))?
        .arg(word_option(alloc, "host-field", "NAME", help::HOST_FIELD))?
        .arg(word_option(alloc, "clock-field", "NAME", help::CLOCK_FIELD))?
        .arg(word_option(alloc, "event-field", "NAME", help::EVENT_FIELD))
}

/// Adds the options that say how answers are shown.
fn with_answers<'a>(alloc: Global, command: Command<'a>) -> Result<Command<'a>, AllocError>
    ensures { IfOk result (λ showing. app_of showing ≡ with_rules answer_rules (app_of command.entry)) }
{
    command
        .arg(flag_option(alloc, "explain", help::EXPLAIN))?
        .arg(flag_option(alloc, "order", help::ORDER))?
        .arg(flag_option(alloc, "json", help::JSON))?
        .arg(flag_option(alloc, "page", help::PAGE))?
        .arg(word_option(alloc, "events", "N", help::EVENTS))?
        .arg(flag_option(alloc, "svg", help::SVG))?
        .arg(word_option(alloc, "columns", "N", help::COLUMNS))?
        .arg(flag_option(alloc, "progress", help::PROGRESS))
}

/// The program's name, and what it says of itself.
fn named<'a>(alloc: Global) -> Command<'a>
    ensures { app_of result ≡ named }
{
    Command::new(alloc, "wcptrace")
        .before_help(help::EXAMPLES)
        .about(help::ABOUT)
        .version(help::VERSION)
        .after_help(help::MORE)
}

/// An option that says a condition of a host, at each of its uses.
fn condition_option<'a>(alloc: Global, name: &'a str, help: &'a str) -> Arg<'a>
    ensures rule { rule_of result ≡ condition_option name.entry.now }
    ensures local { result.global ≡ false }
{
    Arg::new(alloc, name)
        .long(name)
        .value_name("HOST=REGEX")
        .action(ArgAction::Append)
        .help(help)
}

/// An option that takes one word.
fn word_option<'a>(alloc: Global, name: &'a str, value: &'a str, help: &'a str) -> Arg<'a>
    ensures rule { rule_of result ≡ word_option name.entry.now }
    ensures local { result.global ≡ false }
{
    Arg::new(alloc, name)
        .long(name)
        .value_name(value)
        .help(help)
}

/// A flag.
fn flag_option<'a>(alloc: Global, name: &'a str, help: &'a str) -> Arg<'a>
    ensures rule { rule_of result ≡ flag_option name.entry.now }
    ensures local { result.global ≡ false }
{
    Arg::new(alloc, name)
        .long(name)
        .action(ArgAction::SetTrue)
        .help(help)
}

/// The files of the log.
fn file_argument<'a>(alloc: Global) -> Arg<'a>
    ensures rule { rule_of result ≡ file_argument }
    ensures local { result.global ≡ false }
{
    Arg::new(alloc, "file")
        .value_name("FILE")
        .action(ArgAction::Append)
        .help(help::FILE)
}
