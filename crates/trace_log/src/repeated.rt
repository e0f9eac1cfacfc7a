//! Names that stand twice in one object.

use json::Value;
use std::alloc::{AllocError, Global};

/// A name that stands twice in one object of a value, if there is one.
pub(crate) fn repeated_in<'a>(
    alloc: Global,
    value: &Value<'a>,
) -> Result<Option<&'a str>, AllocError> {
    let mut values = Vec::new(alloc);
    values.push(value)?;
    for _ in 0..u64::MAX {
        let Some(value) = values.pop() else {
            return Ok(None);
        };
        match value {
            Value::Array(items) => {
                for item in items {
                    values.push(item)?;
                }
            }
            Value::Object(members) => {
                if let Some(name) = repeated_among(members) {
                    return Ok(Some(name));
                }
                for member in members {
                    values.push(&member.1)?;
                }
            }
            _ => {}
        }
    }
    Ok(None)
}

/// The first name that stands again behind it.
fn repeated_among<'a>(members: &[(&'a str, Value<'a>)]) -> Option<&'a str> {
    for (place, member) in members.iter().enumerate() {
        if members[place + 1..].iter().any(|other| other.0 == member.0) {
            return Some(member.0);
        }
    }
    None
}
