//! Why a document says no questions.
use crate::asked_words::{AskedWords, HostWords};
use crate::keys::{DOCUMENT_KEYS, is_among};
use crate::why_no_pair::{ANY_TWO_KEYS, why_no_any_two};
use crate::why_no_states::why_no_definitely;
use crate::why_none::{bad_word, why_no_conditions};
use crate::wording::{Wording, is_name};
use std::alloc::{AllocError, Global};
use std::fmt;
use toml::{Table, Value};
use trace_condition::Rule;

/// The keys of a question.
const QUESTION_KEYS: &[&str] = &[
    "name",
    "while",
    "from",
    "until",
    "at",
    "definitely",
    "any-two",
    "any-two-from",
    "any-two-until",
];

/// A text whose control characters are shown as TOML writes them, so that it stays in its line.
#[derive(Drop)]
pub(crate) struct Shown<'t>(pub &'t str);

impl fmt::Display for Shown<'_> {
    fn fmt<W: fmt::Write>(&self, f: &mut fmt::Formatter<W>) -> fmt::Result {
        for character in self.0.chars() {
            if character.is_ascii_control() {
                write!(f, "\\u{:04X}", u32::from(character))?;
            } else {
                f.write_char(character)?;
            }
        }
        Ok(())
    }
}

/// Why a document says no questions, in a line.
pub(crate) fn why_no_questions(alloc: Global, document: &Table) -> Result<String, AllocError> {
    if let Some(key) = other_key(document, DOCUMENT_KEYS) {
        return format!(in alloc;
            "there is no key \"{}\": a file has only questions, each under [[question]]",
            Shown(key)
        );
    }
    let tables = match document.get("question") {
        Some(Value::Array(tables)) => tables,
        Some(_) => {
            return String::from_str(
                alloc,
                "key \"question\": each question stands under [[question]]",
            );
        }
        None => return String::from_str(alloc, "there is no [[question]]"),
    };
    for (place, value) in tables.iter().enumerate() {
        let (earlier, _) = tables.split_at(place);
        if let Some(why) = why_no_question(alloc, value, earlier)? {
            return line_of_question(alloc, place + 1, name_of(value), why.as_str());
        }
    }
    String::from_str(alloc, "there is no [[question]]")
}

/// Why the words of a wording say nothing, in a line that names the place of its question, counted from 1.
pub(crate) fn why_words_say_none(
    alloc: Global,
    place: usize,
    wording: &Wording<'_>,
) -> Result<String, AllocError> {
    let why = match &wording.asks {
        AskedWords::OfHosts(words) | AskedWords::OfHostsDefinitely(words) => {
            why_hosts_say_none(alloc, words)?
        }
        AskedWords::OfAnyTwo(Rule::FromUntil(word, _)) => format!(in alloc;
            "key \"any-two-from\": \"{word}\" is not HOSTS=REGEX"
        )?,
        AskedWords::OfAnyTwo(Rule::While(word) | Rule::At(word)) => format!(in alloc;
            "key \"any-two\": \"{word}\" is not HOSTS=REGEX"
        )?,
    };
    line_of_question(alloc, place, Some(wording.name), why.as_str())
}

/// Why the words of hosts say no conditions.
fn why_hosts_say_none(alloc: Global, words: &HostWords<'_>) -> Result<String, AllocError> {
    let words = words.words();
    match bad_word(&words) {
        Some((key, word)) => format!(in alloc; "key \"{key}\": \"{word}\" is not HOST=REGEX"),
        None => why_no_conditions(alloc, &words, ""),
    }
}

/// What is wrong with a question, as a line that names it.
fn line_of_question(
    alloc: Global,
    place: usize,
    name: Option<&str>,
    why: &str,
) -> Result<String, AllocError> {
    match name {
        Some(name) => format!(in alloc; "question {place} ({name}): {}", Shown(why)),
        None => format!(in alloc; "question {place}: {}", Shown(why)),
    }
}

/// The name of a question that has one.
fn name_of(value: &Value) -> Option<&str> {
    let name = value.as_table()?.get("name")?.as_str()?;
    if is_name(name) { Some(name) } else { None }
}

/// Why a value is no question behind these, if it's none.
fn why_no_question(
    alloc: Global,
    value: &Value,
    earlier: &[Value],
) -> Result<Option<String>, AllocError> {
    let Some(table) = value.as_table() else {
        return Ok(Some(String::from_str(alloc, "it is no table")?));
    };
    if let Some(key) = other_key(table, QUESTION_KEYS) {
        let line = format!(in alloc;
            "there is no key \"{key}\": a question has name, and while, from, until, at and definitely, or any-two, or \
             any-two-from and any-two-until"
        )?;
        return Ok(Some(line));
    }
    if let Some(line) = why_no_name(alloc, table, earlier)? {
        return Ok(Some(line));
    }
    if let Some(line) = why_no_definitely(alloc, table)? {
        return Ok(Some(line));
    }
    if ANY_TWO_KEYS.iter().any(|key| table.get(*key).is_some()) {
        return why_no_any_two(alloc, table);
    }
    why_no_words(alloc, table)
}

/// Why the words of the conditions of hosts are none, if they are.
fn why_no_words(alloc: Global, table: &Table) -> Result<Option<String>, AllocError> {
    for (key, value) in table.iter() {
        if !is_among(&["name", "definitely"], key.as_str()) {
            if let Some(line) = why_no_texts(alloc, key.as_str(), value)? {
                return Ok(Some(line));
            }
        }
    }
    Ok(None)
}

/// Why a question has no name of its own, if it has none.
fn why_no_name(
    alloc: Global,
    table: &Table,
    earlier: &[Value],
) -> Result<Option<String>, AllocError> {
    let Some(value) = table.get("name") else {
        return Ok(Some(String::from_str(alloc, "key \"name\" is missing: each question has one")?));
    };
    let Some(name) = value.as_str() else {
        return Ok(Some(String::from_str(alloc, "key \"name\": a name is a text")?));
    };
    if !is_name(name) {
        let line = "key \"name\": a name isn't empty and has no control character";
        return Ok(Some(String::from_str(alloc, line)?));
    }
    for (place, other) in earlier.iter().enumerate() {
        if name_of(other) == Some(name) {
            let line = format!(in alloc; "key \"name\": question {} has this name too", place + 1)?;
            return Ok(Some(line));
        }
    }
    Ok(None)
}

/// Why the value of a key is neither a text nor texts, if it's neither.
fn why_no_texts(alloc: Global, key: &str, value: &Value) -> Result<Option<String>, AllocError> {
    let values = match value {
        Value::String(_) => return Ok(None),
        Value::Array(values) => values,
        _ => {
            let line = format!(in alloc;
                "key \"{key}\": a text HOST=REGEX or an array of such texts is wanted"
            )?;
            return Ok(Some(line));
        }
    };
    for (place, value) in values.iter().enumerate() {
        if value.as_str().is_none() {
            let line = format!(in alloc;
                "key \"{key}\": item {} of the array is no text",
                place + 1
            )?;
            return Ok(Some(line));
        }
    }
    Ok(None)
}

/// The first key of a table that is none of these, if there is one.
fn other_key<'t>(table: &'t Table, keys: &[&str]) -> Option<&'t str> {
    for (key, _) in table.iter() {
        if !is_among(keys, key.as_str()) {
            return Some(key.as_str());
        }
    }
    None
}
