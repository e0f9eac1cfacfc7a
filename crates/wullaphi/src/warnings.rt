//! The lines for what looks wrong in a watch.
ghost use Rattle.std.specs.Prelude.{◌≡◌, ◌++◌, OnOk, string_bytes};
ghost use Rattle.wullaphi.specs.Warnings.{observed_warning, process_warnings, received_warning, warning_lines};

use crate::process_counts::ProcessCounts;
use std::alloc::AllocError;

/// Adds a line for each thing that looks wrong in what the processes did, in the order of their numbers.
pub(crate) fn push_warnings(text: &mut String, counts: &[ProcessCounts]) -> Result<(), AllocError>
    ensures { OnOk result (string_bytes text.new ≡ string_bytes text.old ++ warning_lines counts.now) }
{
    for (process, counts) in counts.iter().enumerate() {
        push_process(text, process, counts)?;
    }
    Ok(())
}

/// Adds the lines of this process.
fn push_process(text: &mut String, process: usize, counts: &ProcessCounts) -> Result<(), AllocError>
    ensures { OnOk result (string_bytes text.new ≡ string_bytes text.old ++ process_warnings process counts.now) }
{
    push_observed(text, process, counts)?;
    push_received(text, process, counts)
}

fn push_observed(
    text: &mut String,
    process: usize,
    counts: &ProcessCounts,
) -> Result<(), AllocError>
    ensures { OnOk result (string_bytes text.new ≡ string_bytes text.old ++ observed_warning process counts.now) }
{
    if counts.watched && counts.observed == 0 {
        writeln!(
            text,
            "warning: process {process} never observed its condition"
        )
    } else {
        Ok(())
    }
}

fn push_received(
    text: &mut String,
    process: usize,
    counts: &ProcessCounts,
) -> Result<(), AllocError>
    ensures { OnOk result (string_bytes text.new ≡ string_bytes text.old ++ received_warning process counts.now) }
{
    let (stamped, received) = (counts.stamped, counts.received);
    if received < stamped {
        writeln!(
            text,
            "warning: messages of process {process}: {stamped} stamped, {received} received"
        )
    } else {
        Ok(())
    }
}
