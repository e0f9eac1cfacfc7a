ghost use Rattle.std.specs.Prelude.{◌≡◌, ◌≤◌, false, length, if◌then◌else◌};
ghost use Rattle.trace_spelling.specs.Breaks.{begins_escape, breaks, is_break, lines_said};

/// How many lines an event has: as many as were said, and else one more than the expression names ends of lines.
pub(crate) fn lines_of(lines: Option<usize>, expression: &str) -> usize
    ensures { result ≡ lines_said lines expression.now }
{
    match lines {
        Some(lines) => lines,
        None => breaks_in(expression).saturating_add(1),
    }
}

/// How many ends of lines an expression names: `\n`, or LF as it stands.
fn breaks_in(expression: &str) -> usize
    ensures { result ≡ breaks false expression.now }
{
    let mut count = 0;
    let mut is_escaped = false;
    for byte in expression.as_bytes() {
        count += count_of(is_break(is_escaped, *byte));
        is_escaped = begins_escape(is_escaped, *byte);
    }
    count
}

/// Whether a byte ends a line, by whether a backslash stands before it.
fn is_break(is_escaped: bool, byte: u8) -> bool
    ensures { result ≡ is_break is_escaped byte }
{
    if is_escaped {
        byte == b'n'
    } else {
        byte == b'\n'
    }
}

/// Whether a byte is a backslash that begins an escape.
fn begins_escape(is_escaped: bool, byte: u8) -> bool
    ensures { result ≡ begins_escape is_escaped byte }
{
    !is_escaped && byte == b'\\'
}

/// One for each that is.
fn count_of(is: bool) -> usize
    ensures { result ≡ (if is then 1 else 0) }
{
    if is { 1 } else { 0 }
}
