//! The printed text of an outcome.
ghost use Rattle.std.specs.Prelude.{◌≡◌, ◌++◌, IfOk, OnOk, string_bytes};
ghost use Rattle.wcp_report.specs.ReportText.{cut_text, member_text, report_line, process_lines, total_line};
ghost use Rattle.wcp_report.specs.ReportText.{outcome_text};

use std::alloc::{AllocError, Global};
use wcp_model::{GlobalCut, Outcome, Report, Tallies};

/// The text of an outcome: what is known of the bad moment, a line for each process, and the sums.
/// `Err` where memory runs out.
pub fn report_text(alloc: Global, outcome: &Outcome) -> Result<Vec<u8>, AllocError>
    ensures { IfOk result (λ text. text.items ≡ outcome_text outcome.now) }
{
    let mut text = String::new(alloc);
    push_report(&mut text, outcome)?;
    Ok(text.into_bytes())
}

/// Adds the text of an outcome to a text. `Err` where memory runs out.
pub fn push_report(text: &mut String, outcome: &Outcome) -> Result<(), AllocError>
    ensures { OnOk result (string_bytes text.new ≡ string_bytes text.old ++ outcome_text outcome.now) }
{
    push_report_line(text, &outcome.report)?;
    push_processes(text, &outcome.tallies)?;
    push_total(text, &outcome.tallies)
}

fn push_report_line(text: &mut String, report: &Report) -> Result<(), AllocError>
    ensures { OnOk result (string_bytes text.new ≡ string_bytes text.old ++ report_line report.now) }
{
    match report {
        Report::Found(cut) => push_cut(text, cut),
        Report::Nothing => text.push_str("none\n"),
        Report::Undecided => text.push_str("undecided\n"),
    }
}

fn push_cut(text: &mut String, cut: &GlobalCut) -> Result<(), AllocError>
    ensures { OnOk result (string_bytes text.new ≡ string_bytes text.old ++ cut_text cut.now) }
{
    text.push_str("found")?;
    for p in 0..cut.len() {
        push_member(text, cut.get(p))?;
    }
    text.push_str("\n")
}

fn push_member(text: &mut String, member: Option<u32>) -> Result<(), AllocError>
    ensures { OnOk result (string_bytes text.new ≡ string_bytes text.old ++ member_text member) }
{
    match member {
        Some(interval) => write!(text, " {interval}"),
        None => text.push_str(" -"),
    }
}

fn push_processes(text: &mut String, tallies: &Tallies) -> Result<(), AllocError>
    ensures { OnOk result (string_bytes text.new ≡ string_bytes text.old ++ process_lines tallies.now) }
{
    for p in 0..tallies.len() {
        let tally = tallies.get(p);
        let (emitted, taken) = (tally.emitted, tally.taken);
        writeln!(text, "process {p} emitted {emitted} taken {taken}")?;
    }
    Ok(())
}

fn push_total(text: &mut String, tallies: &Tallies) -> Result<(), AllocError>
    ensures { OnOk result (string_bytes text.new ≡ string_bytes text.old ++ total_line tallies.now) }
{
    let mut emitted: u128 = 0;
    let mut taken: u128 = 0;
    for p in 0..tallies.len() {
        let tally = tallies.get(p);
        emitted += u128::from(tally.emitted);
        taken += u128::from(tally.taken);
    }
    writeln!(text, "total emitted {emitted} taken {taken}")
}
