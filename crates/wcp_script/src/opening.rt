ghost use Rattle.std.specs.Prelude.{◌≡◌, ◌≤◌, drop, MatchResult, IfOk};
ghost use Rattle.wcp_clock.specs.Limits.{most_processes};
ghost use Rattle.wcp_script.specs.Lines.{lines_of};
ghost use Rattle.wcp_script.specs.Head.{is_version, processes_in, processes_by};
ghost use Rattle.wcp_script.specs.Views.{seen_line};

use crate::fault::{FaultKind, ScriptFault, ask};
use crate::lines::{Line, Words, next_line, words_of};
use crate::number::number_in;
use wcp_clock::MAX_PROCS;

/// How many lines every head has.
pub(crate) const OPENING_LINES: u32 = 2;

/// The number of processes, by the first two lines, and the text after them.
#[tactic(auto, unfolding(crate::specs::Head::processes_by))]
pub(crate) fn read_opening(text: &[u8]) -> Result<(u32, &[u8]), ScriptFault>
    ensures exact { MatchResult result
        (λ opening. (processes_by (lines_of text.now) ≡ Ok opening.0)
        × (lines_of opening.1.now ≡ drop 2 (lines_of text.now)))
        (λ fault. processes_by (lines_of text.now) ≡ Err fault) }
    ensures some { IfOk result (λ opening. 1 ≤ opening.0) }
    ensures few { IfOk result (λ opening. opening.0 ≤ most_processes) }
{
    let Some((version, rest)) = next_line(text) else {
        return Err(ScriptFault {
            line: 1,
            kind: FaultKind::Header,
        });
    };
    if !is_version(version) {
        return Err(ScriptFault {
            line: 1,
            kind: FaultKind::Header,
        });
    }
    let Some((processes, rest)) = next_line(rest) else {
        return Err(ScriptFault {
            line: 2,
            kind: FaultKind::Header,
        });
    };
    match processes_in(processes) {
        Ok(n) => Ok((n, rest)),
        Err(kind) => Err(ScriptFault { line: 2, kind }),
    }
}

fn is_version(line: Line<'_>) -> bool
    ensures { result ≡ is_version (seen_line line.entry) }
{
    line.ended && line.bytes == b"wcp 1".as_slice()
}

#[tactic(auto, unfolding(crate::specs::Head::processes_in))]
fn processes_in(line: Line<'_>) -> Result<u32, FaultKind>
    ensures exact { result ≡ processes_in (seen_line line.entry) }
    ensures some { IfOk result (λ n. 1 ≤ n) }
    ensures few { IfOk result (λ n. n ≤ most_processes) }
{
    if !line.ended {
        return Err(FaultKind::Header);
    }
    let Words::Two(first, count) = words_of(line.bytes) else {
        return Err(FaultKind::Header);
    };
    if first != b"procs".as_slice() {
        return Err(FaultKind::Header);
    }
    let n = number_in(count)?;
    ask((1..=MAX_PROCS).contains(&(n as usize)), FaultKind::Plan)?;
    Ok(n)
}
