ghost use Rattle.std.specs.Prelude.{◌≡◌, ◌≢◌, ◌↔◌, ◌<◌, ◌≤◌, ℕ, length, IsOk, OnOk};
ghost use Rattle.wcp_clock.specs.Limits.{most_processes};
ghost use Rattle.wcp_worker.specs.Runs.{AreAllTaken, AreMatched, AreOfLane, IsAllTaken, ends_between};

use crate::lane_matching::match_lane;
use crate::mailbox::Mailbox;
use wcp_lane::Unfinished;

/// Compares what each process put on its lanes with what the others took from them. The mailboxes are by the numbers
/// of their processes. `Err` where something that was put wasn't taken.
pub fn match_lanes(mut mailboxes: Vec<Mailbox>) -> Result<(), Unfinished>
    requires few { length mailboxes.items ≤ most_processes }
    requires lanes { (p q : ℕ) → p < length mailboxes.items → q < length mailboxes.items
        → AreOfLane p (ends_between mailboxes.items p q) }
    ensures exact { IsOk result ↔ AreAllTaken mailboxes.items }
    ensures matched { OnOk result (AreMatched mailboxes.items) }
{
    for p in 0..mailboxes.len() {
        match_lanes_from(p, &mut mailboxes)?;
    }
    Ok(())
}

/// Matches the lanes of a process to each other.
fn match_lanes_from(p: usize, mailboxes: &mut [Mailbox]) -> Result<(), Unfinished>
    requires few { length mailboxes.old ≤ most_processes }
    requires within { p < length mailboxes.old }
    requires lanes { (q : ℕ) → q < length mailboxes.old → AreOfLane p (ends_between mailboxes.old p q) }
    ensures exact { IsOk result
        ↔ ((q : ℕ) → q < length mailboxes.old → IsAllTaken (ends_between mailboxes.old p q)) }
    ensures others { (a b : ℕ) → a ≢ p → ends_between mailboxes.new a b ≡ ends_between mailboxes.old a b }
    ensures count { length mailboxes.new ≡ length mailboxes.old }
{
    for q in 0..mailboxes.len() {
        match_lane_between(p, q, mailboxes)?;
    }
    Ok(())
}

/// Matches the lane of a process to another, if there is one.
fn match_lane_between(p: usize, q: usize, mailboxes: &mut [Mailbox]) -> Result<(), Unfinished>
    requires few { length mailboxes.old ≤ most_processes }
    requires from { p < length mailboxes.old }
    requires to { q < length mailboxes.old }
    requires lane { AreOfLane p (ends_between mailboxes.old p q) }
    ensures exact { IsOk result ↔ IsAllTaken (ends_between mailboxes.old p q) }
    ensures others { (a b : ℕ) → (a ≡ p → b ≢ q)
        → ends_between mailboxes.new a b ≡ ends_between mailboxes.old a b }
    ensures count { length mailboxes.new ≡ length mailboxes.old }
{
    let outbox = mailboxes[p].take_outbox(q as u32);
    let inbox = mailboxes[q].take_inbox(p as u32);
    match (outbox, inbox) {
        (Some(outbox), Some(inbox)) => match_lane(outbox, inbox),
        (None, None) => Ok(()),
        _ => unreachable!(),
    }
}
