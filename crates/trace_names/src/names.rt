//! Names of hosts, as lines of text show them.
ghost use Rattle.std.specs.Prelude.{◌≡◌, ◌++◌, IfOk, OnOk, string_bytes};
ghost use Rattle.trace_names.specs.Names.{shown_char, shown_code, shown_name};

use std::alloc::{AllocError, Global};

/// A name, as a line shows it: each control character is escaped, so that no name ends a line. `Err` where memory runs
/// out.
pub fn shown_name(alloc: Global, name: &str) -> Result<String, AllocError>
    ensures { IfOk result (λ text. string_bytes text ≡ shown_name name.now) }
{
    let mut text = String::new(alloc);
    push_shown(&mut text, name)?;
    Ok(text)
}

/// Adds a name, as a line shows it. `Err` where memory runs out.
pub fn push_shown(text: &mut String, name: &str) -> Result<(), AllocError>
    ensures { OnOk result (string_bytes text.new ≡ string_bytes text.old ++ shown_name name.now) }
{
    for c in name.chars() {
        push_char(text, c)?;
    }
    Ok(())
}

/// Adds a character of a name.
fn push_char(text: &mut String, c: char) -> Result<(), AllocError>
    ensures { OnOk result (string_bytes text.new ≡ string_bytes text.old ++ shown_char c) }
{
    if !c.is_control() {
        return text.push(c);
    }
    match c {
        '\n' => text.push_str("\\n"),
        '\r' => text.push_str("\\r"),
        '\t' => text.push_str("\\t"),
        _ => push_code(text, u32::from(c)),
    }
}

/// Adds the code of a character.
fn push_code(text: &mut String, code: u32) -> Result<(), AllocError>
    ensures { OnOk result (string_bytes text.new ≡ string_bytes text.old ++ shown_code code) }
{
    write!(text, "\\u{{{code:x}}}")
}
