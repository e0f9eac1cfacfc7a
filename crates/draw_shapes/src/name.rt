//! Names and texts, as a picture writes them.
use std::alloc::{AllocError, Global};

/// The most letters of a name that are drawn, where a character beyond ASCII counts as two.
pub(crate) const MOST_WIDTH: u32 = 24;

/// The name of a host, as a picture writes it.
#[derive(Debug, Drop)]
pub struct Name {
    given: String,
    whole: String,
    shortened: Option<String>,
    width: u32,
}

impl Name {
    /// The name with this text. A character that has a meaning in XML is escaped, and one that XML doesn't have is
    /// replaced by U+FFFD. Of a long one the beginning is drawn, and the whole is its tooltip. `Err` where memory runs
    /// out.
    pub fn new(alloc: Global, text: &str) -> Result<Name, AllocError> {
        let mut whole = String::new(alloc);
        let mut begin = String::new(alloc);
        let mut width = 0u32;
        for c in text.chars() {
            width = width.saturating_add(width_of(c));
            push_escaped(&mut whole, c)?;
            if width < MOST_WIDTH {
                push_escaped(&mut begin, c)?;
            }
        }
        let shortened = if width > MOST_WIDTH {
            begin.push('\u{2026}')?;
            Some(begin)
        } else {
            None
        };
        Ok(Name {
            given: String::from_str(alloc, text)?,
            whole,
            shortened,
            width,
        })
    }

    /// The name as it was given.
    pub fn given(&self) -> &str {
        self.given.as_str()
    }

    /// The whole name, escaped.
    pub(crate) fn whole(&self) -> &str {
        self.whole.as_str()
    }

    /// Its beginning, where the name is too long to be drawn whole.
    pub(crate) fn shortened(&self) -> Option<&str> {
        match &self.shortened {
            Some(begin) => Some(begin.as_str()),
            None => None,
        }
    }

    /// How wide the whole name is, in letters.
    pub fn width(&self) -> u32 {
        self.width
    }
}

/// A text as XML writes it. `Err` where memory runs out.
pub fn escaped(alloc: Global, text: &str) -> Result<String, AllocError> {
    let mut escaped = String::new(alloc);
    for c in text.chars() {
        push_escaped(&mut escaped, c)?;
    }
    Ok(escaped)
}

/// How wide a character is drawn at most, in letters.
fn width_of(c: char) -> u32 {
    if c <= '\u{7f}' { 1 } else { 2 }
}

/// Adds a character as XML writes it.
fn push_escaped(text: &mut String, c: char) -> Result<(), AllocError> {
    match c {
        '&' => text.push_str("&amp;"),
        '<' => text.push_str("&lt;"),
        '>' => text.push_str("&gt;"),
        '"' => text.push_str("&quot;"),
        '\0'..='\u{1f}' | '\u{fffe}' | '\u{ffff}' => text.push('\u{fffd}'),
        _ => text.push(c),
    }
}
