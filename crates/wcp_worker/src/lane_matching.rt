ghost use Rattle.std.specs.Prelude.{◌≡◌, ℕ, ◌↔◌, true, length, IsOk, OnOk};
ghost use Rattle.std.specs.FinSet as set;
ghost use Rattle.wcp_worker.specs.Lanes.{messages_from, clocks_from};

use crate::lane_ends::{Inbox, Outbox};
use wcp_lane::{Unfinished, reconcile};

/// Compares what was put on a lane with what was taken from it. `Err` where something that was put wasn't taken.
pub fn match_lane(outbox: Outbox, inbox: Inbox) -> Result<(), Unfinished>
    requires { outbox.putter.lane ≡ inbox.taker.lane }
    ensures exact { IsOk result ↔ ((p : ℕ) → set.contains outbox.putter.members p ≡ true
        → length (messages_from p inbox.taker.taken) ≡ length (messages_from p outbox.putter.put)) }
    ensures matched { OnOk result ((p : ℕ) → set.contains outbox.putter.members p ≡ true
        → clocks_from p inbox.taker.taken ≡ clocks_from p outbox.putter.put) }
{
    let _receipt = reconcile(inbox.taker.end(), outbox.putter.end())?;
    Ok(())
}
