use clap::Error;
use std::alloc::{AllocError, Global};

/// What is wrong with the words, in a line: what `clap` found, and its hint where there is one.
pub fn usage_line(alloc: Global, error: &Error) -> Result<String, AllocError> {
    let text = error.to_string(alloc)?;
    let mut lines = text.as_str().lines();
    let found = lines.next().unwrap_or("");
    let mut line = String::from_str(alloc, found.strip_prefix("error: ").unwrap_or(found))?;
    for more in lines {
        if let Some(hint) = more.trim_start().strip_prefix("tip: ") {
            line.push_str("; ")?;
            line.push_str(hint)?;
            break;
        }
    }
    Ok(line)
}
