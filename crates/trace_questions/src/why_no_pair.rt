//! Why a table is no question about any two hosts.
use std::alloc::{AllocError, Global};
use toml::Table;

/// The keys of a question about any two hosts.
pub(crate) const ANY_TWO_KEYS: &[&str] = &["any-two", "any-two-from", "any-two-until"];

/// The keys that don't stand beside them.
const KEYS_OF_HOSTS: &[&str] = &["while", "from", "until", "at"];

/// Why a table with a key of any two hosts is no question about them, if it's none.
pub(crate) fn why_no_any_two(alloc: Global, table: &Table) -> Result<Option<String>, AllocError> {
    for key in KEYS_OF_HOSTS {
        if table.get(*key).is_some() {
            let line = format!(in alloc;
                "key \"{key}\" doesn't go with \"any-two\", which asks about any two hosts alone"
            )?;
            return Ok(Some(line));
        }
    }
    if let Some(line) = bad_span(table) {
        return Ok(Some(String::from_str(alloc, line)?));
    }
    for key in ANY_TWO_KEYS {
        if let Some(value) = table.get(*key) {
            if value.as_str().is_none() {
                let wanted = if *key == "any-two-until" {
                    "REGEX"
                } else {
                    "HOSTS=REGEX"
                };
                return Ok(Some(format!(in alloc; "key \"{key}\": a text {wanted} is wanted")?));
            }
        }
    }
    Ok(None)
}

/// What is wrong with the keys of any two hosts beside one another, if anything is.
fn bad_span(table: &Table) -> Option<&'static str> {
    let from = table.get("any-two-from").is_some();
    let until = table.get("any-two-until").is_some();
    if table.get("any-two").is_some() {
        if from || until {
            return Some("\"any-two\" and \"any-two-from\" are two questions: ask one of them");
        }
        return None;
    }
    if from == until {
        return None;
    }
    Some("\"any-two-from\" and \"any-two-until\" need each other")
}
