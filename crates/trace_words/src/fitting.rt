//! Whether the words that say how the answer is shown go together, and say numbers.
ghost use Rattle.std.specs.Prelude.{◌≡◌, true};
ghost use Rattle.trace_words.specs.Fitting.{are_answers_alone, are_lines, are_told_as_text};
ghost use Rattle.trace_words.specs.AnyTwo.{asks_any_two};
ghost use Rattle.trace_words.specs.Fitting.{ask_any_two_alone, ask_definitely_alone, go_together};
ghost use Rattle.trace_words.specs.Fitting.{can_give_order, can_say_why};
ghost use Rattle.trace_words.specs.Fitting.{are_shown_together, ask_together, say_no_condition};
ghost use Rattle.trace_words.specs.Spelled.{spell_one_way};

use crate::options::Options;
use trace_text::AnswerFormat;

/// How many columns a picture has at most where the words don't say.
const USUAL_COLUMNS: u32 = 80;

/// The fewest columns that a picture may be said to have at most, and the most.
const FEWEST_COLUMNS: u32 = 10;

const MOST_COLUMNS: u32 = 1000;

impl Options<'_> {
    /// Whether the words go together, and those that are to be numbers are.
    pub fn are_fit(&self) -> bool
        ensures together { result ≡ true → go_together self.now ≡ true }
        ensures one_way { result ≡ true → spell_one_way self.now.spelled ≡ true }
    {
        self.go_together()
            && self.events_are_said()
            && self.columns_are_said()
            && self.is_input_read_once()
            && self.spelled.misfit().is_none()
            && (!self.asks_any_two() || self.pair_words().is_some() && !self.names_no_hosts())
    }

    /// Whether the words go together.
    fn go_together(&self) -> bool
        ensures { result ≡ go_together self.now }
    {
        self.are_shown_together() && self.ask_together()
    }

    /// Whether not both a page and a picture are asked for, `--events` stands with a page alone, `--columns` with a
    /// picture alone, `--all` and `--json` with none of these, `--explain` with neither a picture nor `--all`, and
    /// `--order` where one moment is told as text.
    fn are_shown_together(&self) -> bool
        ensures { result ≡ are_shown_together self.now }
    {
        !(self.page && self.svg)
            && (self.events.is_none() || self.page)
            && (self.columns.is_none() || self.svg)
            && (!self.all || self.are_told_as_text())
            && (are_lines(self.format) || self.are_answers_alone())
            && (!self.explain || self.can_say_why())
            && (!self.order || self.can_give_order())
    }

    /// Whether `--questions` stands without a condition, and `--question` with `--questions`. Any two hosts are asked
    /// about alone, and so is whether conditions must have held at once.
    fn ask_together(&self) -> bool
        ensures { result ≡ ask_together self.now }
    {
        (self.questions.is_none() || self.say_no_condition())
            && (self.question.is_none() || self.questions.is_some())
            && (!self.asks_any_two() || self.ask_any_two_alone())
            && (!self.definitely || self.ask_definitely_alone())
    }

    /// Whether any two hosts are asked about.
    pub fn asks_any_two(&self) -> bool
        ensures { result ≡ asks_any_two self.now }
    {
        self.any_two.is_some() || self.any_two_from.is_some() || self.any_two_until.is_some()
    }

    /// Whether no condition is said, no file asks questions, and one answer is given, without an explanation.
    fn ask_any_two_alone(&self) -> bool
        ensures { result ≡ ask_any_two_alone self.now }
    {
        self.say_no_condition() && self.questions.is_none() && !self.all && !self.explain
    }

    /// Whether it can be asked if the conditions must have held at once: of named hosts whose states last, with one
    /// answer, without more.
    fn ask_definitely_alone(&self) -> bool
        ensures { result ≡ ask_definitely_alone self.now }
    {
        !self.asks_any_two()
            && self.ats.is_empty()
            && self.questions.is_none()
            && !self.all
            && !self.explain
    }

    /// Whether answers can be shown with their reasons: each of one moment, in words.
    fn can_say_why(&self) -> bool
        ensures { result ≡ can_say_why self.now }
    {
        !self.svg && !self.all
    }

    /// Whether answers can give the events of a moment in order: one moment's, as text.
    fn can_give_order(&self) -> bool
        ensures { result ≡ can_give_order self.now }
    {
        self.are_told_as_text() && !self.all && !self.definitely
    }

    /// Whether no page and no picture is asked for.
    pub fn are_answers_alone(&self) -> bool
        ensures { result ≡ are_answers_alone self.now }
    {
        !self.page && !self.svg
    }

    /// Whether no page, no picture and no file of questions is asked for.
    fn are_told_as_text(&self) -> bool
        ensures { result ≡ are_told_as_text self.now }
    {
        self.questions.is_none() && !self.page && !self.svg
    }

    /// Whether no word says a condition, or a part of one.
    pub fn say_no_condition(&self) -> bool
        ensures { result ≡ say_no_condition self.now }
    {
        self.whiles.is_empty()
            && self.froms.is_empty()
            && self.untils.is_empty()
            && self.ats.is_empty()
    }

    /// Whether the questions and the log aren't both standard input.
    pub fn is_input_read_once(&self) -> bool {
        let reads_input = self.files.is_empty() || self.files.iter().any(|name| *name == "-");
        self.questions != Some("-") || !reads_input
    }

    /// Whether the word of `--events` is a number, where there is one.
    pub fn events_are_said(&self) -> bool {
        match self.events {
            Some(word) => word.parse::<u32>().is_ok(),
            None => true,
        }
    }

    /// Whether the word of `--columns` is a number of columns, where there is one.
    pub fn columns_are_said(&self) -> bool {
        match self.columns {
            Some(word) => number_of_columns(word).is_some(),
            None => true,
        }
    }

    /// How many columns a picture has at most.
    pub fn most_columns(&self) -> u32 {
        match self.columns {
            Some(word) => number_of_columns(word).unwrap_or(USUAL_COLUMNS),
            None => USUAL_COLUMNS,
        }
    }
}

/// Whether answers are printed as lines.
fn are_lines(format: AnswerFormat) -> bool
    ensures { result ≡ are_lines format }
{
    match format {
        AnswerFormat::Lines => true,
        AnswerFormat::Json => false,
    }
}

/// The number of columns that a word says, if it does.
fn number_of_columns(word: &str) -> Option<u32> {
    match word.parse::<u32>() {
        Ok(number) if FEWEST_COLUMNS <= number && number <= MOST_COLUMNS => Some(number),
        _ => None,
    }
}
