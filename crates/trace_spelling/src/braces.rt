//! Bare braces, which some dialects of regular expressions take as they stand.

use std::alloc::{AllocError, Global};

/// Where a look at an expression stands.
#[derive(Clone, Copy, Debug, PartialEq, Eq)]
enum Place {
    /// Outside of classes.
    Outside,
    /// In so many classes.
    Class(usize),
}

/// The expression with a backslash before each bare `{`: one that begins no repetition (`{n}`, `{n,}`, `{n,m}`), is not
/// escaped or part of an escape, and stands in no class.
pub(crate) fn with_braces(alloc: Global, expression: &str) -> Result<String, AllocError> {
    let mut text = String::new(alloc);
    let mut place = Place::Outside;
    let mut escape = Escape::None;
    let mut rest = expression.chars();
    while let Some(c) = rest.next() {
        if c == '{'
            && place == Place::Outside
            && escape == Escape::None
            && !is_repetition(rest.as_str())
        {
            text.push('\\')?;
        }
        if escape == Escape::None {
            place = place_behind(place, c);
        }
        escape = escape.behind(c);
        text.push(c)?;
    }
    Ok(text)
}

/// What a look at an expression has just passed of an escape.
#[derive(Clone, Copy, Debug, PartialEq, Eq)]
enum Escape {
    /// Nothing of one.
    None,
    /// A backslash.
    Begun,
    /// An escape that braces may follow, as `\x` and `\p`.
    Named,
}

impl Escape {
    /// The same behind one character more.
    fn behind(self, c: char) -> Escape {
        match (self, c) {
            (Escape::Begun, 'x' | 'u' | 'U' | 'p' | 'P' | 'b' | 'B') => Escape::Named,
            (Escape::None | Escape::Named, '\\') => Escape::Begun,
            _ => Escape::None,
        }
    }
}

/// The place behind a character that isn't escaped.
fn place_behind(place: Place, c: char) -> Place {
    match (place, c) {
        (Place::Outside, '[') => Place::Class(1),
        (Place::Class(depth), '[') => Place::Class(depth.saturating_add(1)),
        (Place::Class(1), ']') => Place::Outside,
        (Place::Class(depth), ']') => Place::Class(depth.saturating_sub(1)),
        _ => place,
    }
}

/// Whether what stands behind a brace makes it a repetition.
fn is_repetition(rest: &str) -> bool {
    let Some((inside, _)) = rest.split_once('}') else {
        return false;
    };
    match inside.split_once(',') {
        Some((least, most)) => is_number(least) && (most.is_empty() || is_number(most)),
        None => is_number(inside),
    }
}

/// Whether a text is digits alone.
fn is_number(text: &str) -> bool {
    !text.is_empty() && text.bytes().all(|byte| byte.is_ascii_digit())
}
