ghost use Rattle.std.specs.Prelude.{◌≡◌, ◌↔◌, IfOk, Err};
ghost use Rattle.wcp_watch.specs.declared.settle_fault.SettleFault.{SettleFault};
ghost use Rattle.wcp_watch.specs.Settling.{ComeFromWatch, IsFirstSettleFault, IsSettled};

use crate::checker_end::CheckerEnd;
use crate::matching::match_links;
use crate::seated_ends::seat_ends;
use crate::settle_fault::SettleFault;
use crate::shares::{is_book_of, tallies};
use wcp_book::Book;
use wcp_model::Outcome;
use wcp_relay::{ProbeEnd, RelayEnd};

/// Proves the report of a run from the ends of its watch: each ring and each lane is matched, on the way
/// from each process to the checker, the book's shares are compared with what the probes emitted, and the cut in it
/// with that of the checker's first question, whose report is the outcome's.
/// A refusal consumes all that was handed in. It takes no memory.
pub fn settle(
    probes: Vec<ProbeEnd>,
    relays: Vec<RelayEnd>,
    checker: CheckerEnd,
    book: Book,
) -> Result<Outcome, SettleFault>
    requires { ComeFromWatch probes.items relays.items checker }
    ensures settled { IfOk result (IsSettled probes.items checker book) }
    ensures first { (first : SettleFault) → (result ≡ Err first)
        ↔ IsFirstSettleFault probes.items relays.items checker book first }
{
    let mut seated = seat_ends(probes, relays, &checker)?;
    let tallies = tallies(&seated.probes, checker.processes);
    let report = checker.report();
    if !is_book_of(&tallies, &report, &book) {
        return Err(SettleFault::Unfinished);
    }
    match_links(
        checker.relays,
        &mut seated.probes,
        checker.receipt,
        &mut seated.relays,
    )?;
    Ok(Outcome { report, tallies })
}
