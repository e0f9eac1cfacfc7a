//! Why a table with the key `definitely` is no question.
use crate::why_no_pair::ANY_TWO_KEYS;
use std::alloc::{AllocError, Global};
use toml::{Table, Value};

/// Why what stands at `definitely` doesn't go with the other keys of a table, or is no flag, if it's so.
pub(crate) fn why_no_definitely(
    alloc: Global,
    table: &Table,
) -> Result<Option<String>, AllocError> {
    let Some(value) = table.get("definitely") else {
        return Ok(None);
    };
    let line = match value.as_bool() {
        Some(true) => bad_definitely(table),
        Some(false) => None,
        None => Some("key \"definitely\": true or false is wanted"),
    };
    match line {
        Some(line) => Ok(Some(String::from_str(alloc, line)?)),
        None => Ok(None),
    }
}

/// What is wrong with the keys beside `definitely = true`, if anything is.
fn bad_definitely(table: &Table) -> Option<&'static str> {
    if ANY_TWO_KEYS.iter().any(|key| table.get(*key).is_some()) {
        return Some(
            "key \"definitely\" asks about hosts by their names: give the conditions of two in place of \"any-two\"",
        );
    }
    if has_points(table) {
        return Some(
            "key \"definitely\" is of states that last: give \"while\", or \"from\" and \"until\", in place of \"at\"",
        );
    }
    None
}

/// Whether something stands at `at`, and isn't an empty array.
fn has_points(table: &Table) -> bool {
    match table.get("at") {
        Some(Value::Array(values)) => !values.is_empty(),
        Some(_) => true,
        None => false,
    }
}
