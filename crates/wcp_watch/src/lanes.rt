ghost use Rattle.std.specs.Prelude.{◌≡◌, ◌↔◌, ℕ, true, IsOk, OnOk, IfErr};
ghost use Rattle.std.specs.FinSet as set;
ghost use Rattle.wcp_clock.specs.declared.note.Item.{Item};
ghost use Rattle.wcp_lane.specs.Ends.{TakenEnd};
ghost use Rattle.wcp_relay.specs.Feeding.{items_of};
ghost use Rattle.wcp_watch.specs.Seats.{SitsAt};
ghost use Rattle.wcp_watch.specs.Matching.{KeepInboxes, inbox_place};
ghost use Rattle.wcp_watch.specs.declared.settle_fault.SettleFault.TheVariants as settle_fault;

use crate::settle_fault::SettleFault;
use wcp_clock::MAX_RELAYS;
use wcp_lane::{PutReceipt, TakeReceipt, reconcile};
use wcp_model::Parent;
use wcp_relay::Bundle;

/// Matches what a relay put with what was taken from the inbox of its parent. The inboxes of the relays
/// are by their numbers, and the root's is behind them. `Err` where not all that it put was taken.
pub(crate) fn match_lane(
    parent: Parent,
    put: PutReceipt<Bundle>,
    inboxes: &mut [Option<TakeReceipt<Bundle>>],
) -> Result<(), SettleFault>
    requires { (receipt : TakenEnd Bundle Item) × SitsAt inboxes.old (inbox_place parent) receipt
        × (receipt.lane ≡ put.lane) }
    ensures exact { (receipt : TakenEnd Bundle Item) → SitsAt inboxes.old (inbox_place parent) receipt
        → IsOk result ↔ ((p : ℕ) → set.contains put.members p ≡ true
        → items_of p receipt.taken ≡ items_of p put.put) }
    ensures kept { OnOk result (KeepInboxes inboxes.old inboxes.new) }
    ensures fault { IfErr result (λ fault. fault ≡ settle_fault.Unfinished) }
{
    let place = place_of_inbox(parent);
    prove!(place < inboxes.len());
    let Some(receipt) = inboxes[place].take() else {
        unreachable!();
    };
    match reconcile(receipt, put) {
        Ok(receipt) => {
            inboxes[place] = Some(receipt);
            Ok(())
        }
        Err(_) => Err(SettleFault::Unfinished),
    }
}

/// Where the inbox of a relay's parent is.
fn place_of_inbox(parent: Parent) -> usize
    ensures { result ≡ inbox_place parent }
{
    match parent {
        Parent::Root => MAX_RELAYS,
        Parent::Relay(above) => above as usize,
    }
}
