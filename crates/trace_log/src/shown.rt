use std::fmt;

/// The most characters of a text that are shown.
const MOST_SHOWN: usize = 60;

/// A text of the log, as a line on standard error shows it: the first 60 characters. What doesn't print is escaped, so
/// that it can't break the line. An empty text is shown in quotes.
#[derive(Clone, Copy)]
pub(crate) struct Shown<'t>(pub &'t str);

impl fmt::Display for Shown<'_> {
    fn fmt<W: fmt::Write>(&self, f: &mut fmt::Formatter<W>) -> fmt::Result {
        let text = self.0;
        if text.is_empty() {
            return f.write_str("\"\"");
        }
        let mut room = MOST_SHOWN;
        for c in text.chars() {
            if room == 0 {
                return f.write_str("...");
            }
            room -= 1;
            show(c, f)?;
        }
        Ok(())
    }
}

/// Words, as a line on standard error shows them: whole, and what doesn't print is escaped.
#[derive(Clone, Copy)]
pub(crate) struct Printed<'t>(pub &'t str);

impl fmt::Display for Printed<'_> {
    fn fmt<W: fmt::Write>(&self, f: &mut fmt::Formatter<W>) -> fmt::Result {
        for c in self.0.chars() {
            show(c, f)?;
        }
        Ok(())
    }
}

/// Shows a character: as it is, or escaped where it doesn't print.
fn show<W: fmt::Write>(c: char, f: &mut fmt::Formatter<W>) -> fmt::Result {
    if c == '"' || c == '\'' || c == '\\' {
        return f.write_char(c);
    }
    for part in c.escape_debug() {
        f.write_char(part)?;
    }
    Ok(())
}
