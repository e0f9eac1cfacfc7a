//! What stands at the keys of a table.
ghost use Rattle.std.specs.Prelude.{◌≡◌, ◌∷◌, [], option_map, IfOk};
ghost use Rattle.std.specs.List.{list_any};
ghost use Rattle.std.specs.Str.{bytes_eq};
ghost use Rattle.toml.specs.Data.{as_str};
ghost use Rattle.toml.specs.View.{view, array_view, table_view};
ghost use Rattle.trace_condition.specs.Asked.{all_read};
ghost use Rattle.trace_condition.specs.Sayings.{seen_texts};
ghost use Rattle.trace_questions.specs.Wordings.{flag_at, has_only, list_of, text_at, words_at, words_of};

use std::alloc::{AllocError, Global};
use toml::value::Array;
use toml::{Table, Value};

/// The key of a document.
pub(crate) const DOCUMENT_KEYS: &[&str] = &["question"];

/// The keys of a question about hosts.
pub(crate) const HOST_KEYS: &[&str] = &["name", "while", "from", "until", "at", "definitely"];

/// The keys of a question about a state of any two hosts.
pub(crate) const STATE_KEYS: &[&str] = &["name", "any-two", "definitely"];

/// The keys of a question about a span of any two hosts.
pub(crate) const SPAN_KEYS: &[&str] = &["name", "any-two-from", "any-two-until", "definitely"];

/// The text at a key of a question, if there is one.
pub(crate) fn text_at<'t>(table: &'t Table, key: &str) -> Option<&'t str>
    ensures { option_map (λ text. text.now) result ≡ text_at key.now (table_view table.now) }
{
    let Some(value) = table.get(key) else {
        return None;
    };
    value.as_str()
}

/// The flag at a key of a question, which is `false` where the key isn't there, if what stands there is a flag.
pub(crate) fn flag_at(table: &Table, key: &str) -> Option<bool>
    ensures { result ≡ flag_at key.now (table_view table.now) }
{
    let Some(value) = table.get(key) else {
        return Some(false);
    };
    value.as_bool()
}

/// The words that stand at a key of a question.
pub(crate) fn words_at<'t>(
    alloc: Global,
    table: &'t Table,
    key: &str,
) -> Result<Option<Vec<&'t str>>, AllocError>
    ensures { IfOk result (λ found.
        option_map (λ words. seen_texts words.items) found ≡ words_at key.now (table_view table.now)) }
{
    let Some(value) = table.get(key) else {
        return Ok(Some(Vec::new(alloc)));
    };
    words_of(alloc, value)
}

/// The words that a value says: it's one text, or an array of texts.
fn words_of<'t>(alloc: Global, value: &'t Value) -> Result<Option<Vec<&'t str>>, AllocError>
    ensures { IfOk result (λ found. option_map (λ words. seen_texts words.items) found ≡ words_of (view value.now)) }
{
    match value {
        Value::String(text) => Ok(Some(one(alloc, text.as_str())?)),
        Value::Array(values) => each_text(alloc, values),
        _ => Ok(None),
    }
}

/// A text alone.
fn one<'t>(alloc: Global, text: &'t str) -> Result<Vec<&'t str>, AllocError>
    ensures { IfOk result (λ texts. seen_texts texts.items ≡ text.now ∷ []) }
{
    let mut texts = Vec::with_capacity(alloc, 1)?;
    texts.push(text)?;
    Ok(texts)
}

/// The text that each of these values is.
fn each_text<'t>(alloc: Global, values: &'t Array) -> Result<Option<Vec<&'t str>>, AllocError>
    ensures { IfOk result (λ found.
        option_map (λ texts. seen_texts texts.items) found ≡ all_read as_str (list_of (array_view values.now))) }
{
    let mut texts = Vec::with_capacity(alloc, values.len())?;
    for value in values {
        let Some(text) = value.as_str() else {
            return Ok(None);
        };
        texts.push(text)?;
    }
    Ok(Some(texts))
}

/// Whether a table has no keys but these.
#[tactic(auto, using(crate::proofs::Members::any_among))]
pub(crate) fn has_only(table: &Table, keys: &[&str]) -> bool
    ensures { result ≡ has_only (seen_texts keys.now) (table_view table.now) }
{
    for (key, _) in table.iter() {
        if !is_among(keys, key.as_str()) {
            return false;
        }
    }
    true
}

/// Whether a key is one of these.
pub(crate) fn is_among(keys: &[&str], key: &str) -> bool
    ensures { result ≡ list_any (λ one. bytes_eq key.now one.now) keys.now }
{
    keys.iter().any(|one| key == *one)
}
