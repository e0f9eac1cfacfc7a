//! The text of a workload.
ghost use Rattle.std.specs.Prelude.{◌≡◌, ◌++◌, IfOk, OnOk, string_bytes};
ghost use Rattle.std.specs.List.{flat_map, list_all, range_with_len};
ghost use Rattle.wcp_model.specs.PlanFault.{IsCheckedPlan};
ghost use Rattle.wcp_model.specs.WorkloadComputation.{CouldBeRead};
ghost use Rattle.wcp_script.specs.TextFault.{workloads, Spells};
ghost use Rattle.wcp_script.specs.WorkloadText.{task_line};
ghost use Rattle.wcp_script.specs.Lines.{text_of};
ghost use Rattle.wcp_script.specs.PlanText.{attach_lines, cap_lines, flag_lines, has_one_relay, head_lines, hold_lines};
ghost use Rattle.wcp_script.specs.PlanText.{is_first};
ghost use Rattle.wcp_script.specs.PlanText.{are_all_watched, numbered, spaced_word, watch_lines};
ghost use Rattle.wcp_script.specs.PlanText.{opening_lines, relay_lines, text_of_workload, tree_lines};

use crate::head::{PLAIN_CAP, PLAIN_HOLD};
use std::alloc::{AllocError, Global};
use wcp_model::{Action, Flag, Parent, Plan, Task, Watched, Workload};

/// The text that spells a workload: the lines of its head, and a line for each task in turn. `Err`
/// where memory runs out.
pub fn workload_text(alloc: Global, workload: &Workload) -> Result<Vec<u8>, AllocError>
    ensures text { IfOk result (λ text. text.items ≡ text_of_workload workload.now.plan workload.now.tasks.items) }

    // Where the plan passes its check and the workload could be read, reading the text gives it back.
    ensures spells { IfOk result (λ text.
        IsCheckedPlan workload.now.plan → CouldBeRead workload.now.plan.n workload.now.tasks.items
        → Spells workloads text.items workload.now.plan workload.now.tasks.items) }
{
    let mut text = String::new(alloc);
    push_head(&mut text, &workload.plan)?;
    push_tasks(&mut text, &workload.tasks)?;
    Ok(text.into_bytes())
}

fn push_head(text: &mut String, plan: &Plan) -> Result<(), AllocError>
    ensures { OnOk result (string_bytes text.new ≡ string_bytes text.old ++ text_of (head_lines plan.now)) }
{
    push_opening(text, plan.n)?;
    push_cap(text, plan.cap)?;
    push_hold(text, plan.hold)?;
    push_tree(text, plan)?;
    push_watch(text, plan.n, plan.watched)?;
    push_flag(text, plan.flag)
}

fn push_opening(text: &mut String, n: u32) -> Result<(), AllocError>
    ensures { OnOk result (string_bytes text.new ≡ string_bytes text.old ++ text_of (opening_lines n)) }
{
    write!(text, "wcp 1\nprocs {n}\n")
}

fn push_cap(text: &mut String, cap: u32) -> Result<(), AllocError>
    ensures { OnOk result (string_bytes text.new ≡ string_bytes text.old ++ text_of (cap_lines cap)) }
{
    if cap == PLAIN_CAP {
        return Ok(());
    }
    writeln!(text, "cap {cap}")
}

fn push_hold(text: &mut String, hold: u32) -> Result<(), AllocError>
    ensures { OnOk result (string_bytes text.new ≡ string_bytes text.old ++ text_of (hold_lines hold)) }
{
    if hold == PLAIN_HOLD {
        return Ok(());
    }
    writeln!(text, "hold {hold}")
}

fn push_tree(text: &mut String, plan: &Plan) -> Result<(), AllocError>
    ensures { OnOk result (string_bytes text.new ≡ string_bytes text.old ++ text_of (tree_lines plan.now)) }
{
    if has_one_relay(plan) {
        return Ok(());
    }
    push_relays(text, &plan.parents)?;
    push_attachments(text, &plan.attach)
}

/// Whether the plan has one relay, under the root, which serves every process.
fn has_one_relay(plan: &Plan) -> bool
    ensures { result ≡ has_one_relay plan.now }
{
    plan.parents.as_slice() == [Parent::Root].as_slice()
        && plan.attach.len() == plan.n as usize
        && are_served_by_first(&plan.attach)
}

fn are_served_by_first(attach: &[Option<u32>]) -> bool
    ensures { result ≡ list_all is_first attach.now }
{
    for entry in attach {
        if *entry != Some(0) {
            return false;
        }
    }
    true
}

fn push_relays(text: &mut String, parents: &[Parent]) -> Result<(), AllocError>
    ensures { OnOk result (string_bytes text.new
        ≡ string_bytes text.old ++ text_of (numbered relay_lines 0 parents.now)) }
{
    for (relay, parent) in parents.iter().enumerate() {
        push_relay(text, relay, *parent)?;
    }
    Ok(())
}

fn push_relay(text: &mut String, relay: usize, parent: Parent) -> Result<(), AllocError>
    ensures { OnOk result (string_bytes text.new ≡ string_bytes text.old ++ text_of (relay_lines relay parent)) }
{
    match parent {
        Parent::Root => writeln!(text, "relay {relay} root"),
        Parent::Relay(above) => writeln!(text, "relay {relay} {above}"),
    }
}

fn push_attachments(text: &mut String, attach: &[Option<u32>]) -> Result<(), AllocError>
    ensures { OnOk result (string_bytes text.new
        ≡ string_bytes text.old ++ text_of (numbered attach_lines 0 attach.now)) }
{
    for (p, entry) in attach.iter().enumerate() {
        push_attachment(text, p, *entry)?;
    }
    Ok(())
}

fn push_attachment(text: &mut String, p: usize, entry: Option<u32>) -> Result<(), AllocError>
    ensures { OnOk result (string_bytes text.new ≡ string_bytes text.old ++ text_of (attach_lines p entry)) }
{
    match entry {
        Some(relay) => writeln!(text, "attach {p} {relay}"),
        None => Ok(()),
    }
}

#[tactic(auto, using(crate::proofs::PrintedLines::watch_printed))]
fn push_watch(text: &mut String, n: u32, watched: Watched) -> Result<(), AllocError>
    ensures { OnOk result (string_bytes text.new ≡ string_bytes text.old ++ text_of (watch_lines n watched)) }
{
    if are_all_watched(n, watched) {
        return Ok(());
    }
    write!(text, "watch")?;
    push_watched(text, n, watched)?;
    writeln!(text, "")
}

fn push_flag(text: &mut String, flag: Flag) -> Result<(), AllocError>
    ensures { OnOk result (string_bytes text.new ≡ string_bytes text.old ++ text_of (flag_lines flag)) }
{
    match flag {
        Flag::Event => Ok(()),
        Flag::Send => writeln!(text, "flag send"),
    }
}

#[tactic(auto, using(crate::proofs::Ranges::range_next))]
fn are_all_watched(n: u32, watched: Watched) -> bool
    ensures { result ≡ are_all_watched n watched }
{
    for p in 0..n {
        if !watched.has(p) {
            return false;
        }
    }
    true
}

#[tactic(auto, using(crate::proofs::Ranges::pieces_more))]
fn push_watched(text: &mut String, n: u32, watched: Watched) -> Result<(), AllocError>
    ensures { OnOk result (string_bytes text.new
        ≡ string_bytes text.old ++ flat_map (spaced_word watched) (range_with_len 0 n)) }
{
    for p in 0..n {
        push_spaced(text, watched, p)?;
    }
    Ok(())
}

fn push_spaced(text: &mut String, watched: Watched, p: u32) -> Result<(), AllocError>
    ensures { OnOk result (string_bytes text.new ≡ string_bytes text.old ++ spaced_word watched p) }
{
    if !watched.has(p) {
        return Ok(());
    }
    write!(text, " {p}")
}

fn push_tasks(text: &mut String, tasks: &[Task]) -> Result<(), AllocError>
    ensures { OnOk result (string_bytes text.new ≡ string_bytes text.old ++ flat_map task_line tasks.now) }
{
    for task in tasks {
        push_task(text, *task)?;
    }
    Ok(())
}

fn push_task(text: &mut String, task: Task) -> Result<(), AllocError>
    ensures { OnOk result (string_bytes text.new ≡ string_bytes text.old ++ task_line task) }
{
    let p = task.p;
    match task.action {
        Action::Observe(true) => writeln!(text, "p {p} true"),
        Action::Observe(false) => writeln!(text, "p {p} false"),
        Action::Send(to) => writeln!(text, "p {p} send {to}"),
        Action::Recv(from) => writeln!(text, "p {p} recv {from}"),
    }
}
