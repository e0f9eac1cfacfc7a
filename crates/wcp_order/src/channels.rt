ghost use Rattle.std.specs.Prelude.{◌≡◌, ℕ, ◌+◌, ◌*◌, ◌<◌, ◌≤◌, ◌↔◌, ◌^◌, length, slice_index, IsTrue};
ghost use Rattle.wcp_clock.specs.Limits.{most_processes};
ghost use Rattle.wcp_model.specs.WorkloadComputation.{IsWithin};
ghost use Rattle.wcp_order.specs.Progress.{IsReady, in_transit_after};

use wcp_model::Action;

/// The number of the channel from one process to another, of n processes.
pub fn channel(n: u32, from: u32, to: u32) -> usize
    requires few { n ≤ most_processes }
    requires from { from < n }
    requires to { to < n }
    ensures { result ≡ from * n + to }
{
    (from * n + to) as usize
}

/// Whether process p, of n, can do this action now: a message that it receives is in transit.
pub(crate) fn is_ready(in_transit: &[usize], n: u32, p: u32, action: Action) -> bool
    requires few { n ≤ most_processes }
    requires channels { length in_transit.now ≡ n * n }
    requires within { IsWithin n (record { p = p; action = action }) }
    ensures { IsTrue result ↔ IsReady n in_transit.now p action }
{
    match action {
        Action::Recv(from) => in_transit[channel(n, from, p)] > 0,
        Action::Observe(_) | Action::Send(_) => true,
    }
}

/// Counts the messages in transit after an action of process p, of n.
pub(crate) fn count(in_transit: &mut [usize], n: u32, p: u32, action: Action)
    requires few { n ≤ most_processes }
    requires channels { length in_transit.old ≡ n * n }
    requires within { IsWithin n (record { p = p; action = action }) }
    requires ready { IsReady n in_transit.old p action }
    requires fits { (q : ℕ) → q < n → slice_index in_transit.old (p * n + q) + 1 < 2 ^ 64 }
    ensures { in_transit.new ≡ in_transit_after n in_transit.old p action }
{
    match action {
        Action::Observe(_) => {}
        Action::Send(to) => in_transit[channel(n, p, to)] += 1,
        Action::Recv(from) => in_transit[channel(n, from, p)] -= 1,
    }
}
