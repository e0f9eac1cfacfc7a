//! The questions that a document words.
ghost use Rattle.std.specs.Prelude.{◌≡◌, map, option_map, IfOk};
ghost use Rattle.std.specs.List.{list_any};
ghost use Rattle.std.specs.Str.{bytes_eq};
ghost use Rattle.toml.specs.View.{view, array_view, table_view};
ghost use Rattle.trace_condition.specs.Asked.{all_read, are_distinct};
ghost use Rattle.trace_questions.specs.Wordings.{are_fit, is_control, is_name, list_of, name_in, questions_in};
ghost use Rattle.trace_questions.specs.Wordings.{wording_in, wording_of, wordings_of};
ghost use Rattle.trace_questions.specs.Seen.{name_worded, seen_wording};

use crate::asked_words::{AskedWords, asked_in};
use crate::keys::{DOCUMENT_KEYS, has_only};
use std::alloc::{AllocError, Global};
use toml::value::Array;
use toml::{Table, Value};

/// A question as a document words it: its name, and its words.
#[derive(Debug, Drop)]
pub(crate) struct Wording<'t> {
    pub name: &'t str,
    pub asks: AskedWords<'t>,
}

/// The wordings of a document's questions, if it says questions.
pub(crate) fn wordings_in<'t>(
    alloc: Global,
    document: &'t Table,
) -> Result<Option<Vec<Wording<'t>>>, AllocError>
    ensures { IfOk result (λ found.
        option_map (λ wordings. map seen_wording wordings.items) found ≡ questions_in (table_view document.now)) }
{
    if !has_only(document, DOCUMENT_KEYS) {
        return Ok(None);
    }
    let Some(value) = document.get("question") else {
        return Ok(None);
    };
    let Some(tables) = value.as_array() else {
        return Ok(None);
    };
    wordings_of(alloc, tables)
}

/// The wordings of these tables, if each words a question and no two have one name.
fn wordings_of<'t>(alloc: Global, tables: &'t Array) -> Result<Option<Vec<Wording<'t>>>, AllocError>
    ensures { IfOk result (λ found.
        option_map (λ wordings. map seen_wording wordings.items) found ≡ wordings_of (array_view tables.now)) }
{
    let Some(wordings) = each_wording(alloc, tables)? else {
        return Ok(None);
    };
    if !are_fit(&wordings) {
        return Ok(None);
    }
    Ok(Some(wordings))
}

/// The wording of each of these tables.
fn each_wording<'t>(
    alloc: Global,
    tables: &'t Array,
) -> Result<Option<Vec<Wording<'t>>>, AllocError>
    ensures { IfOk result (λ found. option_map (λ wordings. map seen_wording wordings.items) found
        ≡ all_read wording_of (list_of (array_view tables.now))) }
{
    let mut wordings = Vec::with_capacity(alloc, tables.len())?;
    for value in tables {
        let Some(wording) = wording_of(alloc, value)? else {
            return Ok(None);
        };
        wordings.push(wording)?;
    }
    Ok(Some(wordings))
}

/// The wording of the question that a value is.
fn wording_of<'t>(alloc: Global, value: &'t Value) -> Result<Option<Wording<'t>>, AllocError>
    ensures { IfOk result (λ found. option_map seen_wording found ≡ wording_of (view value.now)) }
{
    let Some(table) = value.as_table() else {
        return Ok(None);
    };
    wording_in(alloc, table)
}

/// The wording of the question that a table is.
fn wording_in<'t>(alloc: Global, table: &'t Table) -> Result<Option<Wording<'t>>, AllocError>
    ensures { IfOk result (λ found. option_map seen_wording found ≡ wording_in (table_view table.now)) }
{
    let Some(name) = name_in(table) else {
        return Ok(None);
    };
    let Some(asks) = asked_in(alloc, table)? else {
        return Ok(None);
    };
    Ok(Some(Wording { name, asks }))
}

/// The name of a question, if it has a fit one.
fn name_in(table: &Table) -> Option<&str>
    ensures { option_map (λ name. name.now) result ≡ name_in (table_view table.now) }
{
    let Some(value) = table.get("name") else {
        return None;
    };
    let Some(name) = value.as_str() else {
        return None;
    };
    if is_name(name) { Some(name) } else { None }
}

/// Whether a text is a name: it isn't empty, and has no control character.
pub(crate) fn is_name(text: &str) -> bool
    ensures { result ≡ is_name text.now }
{
    !text.is_empty() && !has_control(text.as_bytes())
}

/// Whether one of these bytes is a control character.
fn has_control(bytes: &[u8]) -> bool
    ensures { result ≡ list_any is_control bytes.now }
{
    bytes.iter().any(|byte| *byte < 32 || *byte == 127)
}

/// Whether there is a question, and no two have one name.
#[tactic(auto, using(crate::proofs::Wordings::fit_as))]
fn are_fit(wordings: &[Wording<'_>]) -> bool
    ensures { result ≡ are_fit (map seen_wording wordings.now) }
{
    !wordings.is_empty() && are_distinct(wordings)
}

/// Whether no two questions have one name.
fn are_distinct(wordings: &[Wording<'_>]) -> bool
    ensures { result ≡ are_distinct (map name_worded wordings.now) }
{
    for at in 0..wordings.len() {
        let wording = &wordings[at];
        let (_, others) = wordings.split_at(at + 1);
        if has_name(others, wording.name) {
            return false;
        }
    }
    true
}

/// Whether one of these questions has this name.
fn has_name(wordings: &[Wording<'_>], name: &str) -> bool
    ensures { result ≡ list_any (λ wording. bytes_eq name.now (name_worded wording)) wordings.now }
{
    wordings.iter().any(|wording| name == wording.name)
}
