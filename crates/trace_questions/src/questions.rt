ghost use Rattle.std.specs.Prelude.{◌≡◌, Some, ℕ, List, map, IfOk, IfErr};
ghost use Rattle.std.specs.Result.{MatchResult};
ghost use Rattle.toml.specs.Parse.{parse_document};
ghost use Rattle.toml.specs.View.{table_view};
ghost use Rattle.trace_condition.specs.declared.fault.ConditionFault.TheVariants as of_words;
ghost use Rattle.trace_asking.specs.Asking.{HaveAll};
ghost use Rattle.trace_asking.specs.Seeking.{IsAskable};
ghost use Rattle.trace_questions.specs.Questions.{AreQuestionsOf, AskWhy};
ghost use Rattle.trace_questions.specs.Faults.{ReadsAsked, ReadsQuestion, ReadsWordings, RefusesAsked};
ghost use Rattle.trace_questions.specs.Faults.{RefusesQuestion, RefusesText, SaysNone};
ghost use Rattle.trace_questions.specs.Seen.{seen_asked, seen_wording};

use crate::asked_words::AskedWords;
use crate::explain::{why_no_questions, why_words_say_none};
use crate::fault::QuestionsFault;
use crate::wording::{Wording, wordings_in};
use std::alloc::Global;
use std::str;
use toml::Table;
use trace_asking::{Question, Subject};
use trace_condition::{ConditionFault, read_conditions};
use trace_pairs::read_hosts_condition;

/// The questions that a text asks, in their order. It's a TOML document of tables `[[question]]`, each with a `name`,
/// and with words HOST=REGEX, one or an array of them, at the keys `while`, `from`, `until` and `at`; or with a text
/// HOSTS=REGEX at `any-two`, or one at `any-two-from` and an expression at `any-two-until`. With `definitely = true` it
/// asks of hosts, and not at a point, whether the conditions must have held at once. `why`: whether the reasons of
/// their answers are asked for.
///
/// It fails where the text is no such document, where a question's words say nothing, where an expression isn't one, or
/// where memory runs out.
pub fn read_questions(
    alloc: Global,
    text: &[u8],
    why: bool,
) -> Result<Vec<Question>, QuestionsFault>
    ensures read { IfOk result (λ questions. AreQuestionsOf text.now questions.items) }
    ensures have { IfOk result (λ questions. HaveAll questions.items) }
    ensures why { IfOk result (λ questions. AskWhy why questions.items) }
    ensures refused { IfErr result (RefusesText text.now) }
{
    let text = text_of(text)?;
    let document = document_of(alloc, text)?;
    let Some(wordings) = wordings_in(alloc, &document)? else {
        return Err(no_questions(alloc, &document));
    };
    read_each(alloc, &wordings, why)
}

/// The bytes as a text.
fn text_of(bytes: &[u8]) -> Result<&str, QuestionsFault>
    ensures { MatchResult result (λ text. text.now ≡ bytes.now) (RefusesText bytes.now) }
{
    match str::from_utf8(bytes) {
        Ok(text) => Ok(text),
        Err(error) => {
            let (line, _) = place_of(bytes, error.valid_up_to());
            Err(QuestionsFault::Text { line })
        }
    }
}

/// The document that a text is.
fn document_of(alloc: Global, text: &str) -> Result<Table, QuestionsFault>
    ensures { MatchResult result (λ document. parse_document text.now ≡ Some (table_view document))
        (RefusesText text.now) }
{
    match toml::table_from_str(alloc, text) {
        Ok(document) => Ok(document),
        Err(why) if why.is_memory() => Err(QuestionsFault::Memory),
        Err(why) => {
            let at = match why.span() {
                Some(span) => span.start,
                None => 0,
            };
            let (line, column) = place_of(text.as_bytes(), at);
            Err(QuestionsFault::Toml { line, column, why })
        }
    }
}

/// The line and the column, both counted from 1, of a byte of a text. A column counts characters.
fn place_of(text: &[u8], at: usize) -> (usize, usize) {
    let mut line = 1usize;
    let mut column = 1usize;
    for (place, byte) in text.iter().enumerate() {
        if place >= at {
            break;
        }
        if *byte == b'\n' {
            line = line.saturating_add(1);
            column = 1;
        } else if *byte & 0xC0 != 0x80 {
            column = column.saturating_add(1);
        }
    }
    (line, column)
}

/// The fault of a document that says no questions.
fn no_questions(alloc: Global, document: &Table) -> QuestionsFault
    ensures { (text : List ℕ) → parse_document text ≡ Some (table_view document.now) →
        SaysNone (table_view document.now) → RefusesText text result }
{
    match why_no_questions(alloc, document) {
        Ok(line) => QuestionsFault::Question(line),
        Err(_) => QuestionsFault::Memory,
    }
}

/// The questions that are worded.
fn read_each(
    alloc: Global,
    wordings: &[Wording<'_>],
    why: bool,
) -> Result<Vec<Question>, QuestionsFault>
    ensures read { ReadsWordings (map seen_wording wordings.now) result }
    ensures have { IfOk result (λ questions. HaveAll questions.items) }
    ensures why { IfOk result (λ questions. AskWhy why questions.items) }
{
    let mut questions = Vec::with_capacity(alloc, wordings.len())?;
    for place in 0..wordings.len() {
        let question = read_one(alloc, place + 1, &wordings[place], why)?;
        questions.push(question)?;
    }
    Ok(questions)
}

/// The question that is worded, at this place of the document.
fn read_one(
    alloc: Global,
    place: usize,
    wording: &Wording<'_>,
    why: bool,
) -> Result<Question, QuestionsFault>
    ensures read { ReadsQuestion place (seen_wording wording.now) result }
    ensures has { IfOk result (λ question. IsAskable question.subject) }
    ensures why { IfOk result (λ question. question.why ≡ why) }
{
    let subject = match read_subject(alloc, &wording.asks) {
        Ok(subject) => subject,
        Err(fault) => return Err(fault_of(alloc, place, wording, fault)),
    };
    let name = String::from_str(alloc, wording.name)?;
    Ok(Question { name, subject, why })
}

/// What these words ask.
fn read_subject(alloc: Global, words: &AskedWords<'_>) -> Result<Subject, ConditionFault>
    ensures read { ReadsAsked (seen_asked words.now) result }
    ensures has { IfOk result IsAskable }
{
    match words {
        AskedWords::OfHosts(words) => {
            let conditions = read_conditions(alloc, &words.words())?;
            Ok(Subject::Hosts(conditions))
        }
        AskedWords::OfHostsDefinitely(words) => {
            let conditions = read_conditions(alloc, &words.words())?;
            Ok(Subject::Definitely(conditions))
        }
        AskedWords::OfAnyTwo(words) => {
            let condition = read_hosts_condition(alloc, words)?;
            Ok(Subject::AnyTwo(condition))
        }
    }
}

/// The fault of a wording whose words have this fault.
fn fault_of(
    alloc: Global,
    place: usize,
    wording: &Wording<'_>,
    fault: ConditionFault,
) -> QuestionsFault
    requires { RefusesAsked (seen_asked wording.now.asks) fault }
    ensures { RefusesQuestion place (seen_wording wording.now) result }
{
    match fault {
        ConditionFault::Usage => no_conditions(alloc, place, wording),
        ConditionFault::Expression { host, why } => match String::from_str(alloc, wording.name) {
            Ok(name) => QuestionsFault::Expression {
                place,
                name,
                host,
                why,
            },
            Err(_) => QuestionsFault::Memory,
        },
        ConditionFault::Memory => QuestionsFault::Memory,
    }
}

/// The fault of a wording whose words say nothing.
fn no_conditions(alloc: Global, place: usize, wording: &Wording<'_>) -> QuestionsFault
    requires { RefusesAsked (seen_asked wording.now.asks) of_words.Usage }
    ensures { RefusesQuestion place (seen_wording wording.now) result }
{
    match why_words_say_none(alloc, place, wording) {
        Ok(line) => QuestionsFault::Question(line),
        Err(_) => QuestionsFault::Memory,
    }
}
