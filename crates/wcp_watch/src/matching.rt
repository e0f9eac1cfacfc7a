ghost use Rattle.std.specs.Prelude.{◌≡◌, ◌↔◌, ◌<◌, ℕ, None, Some, length, slice_set, IsOk, IfErr};
ghost use Rattle.wcp_relay.specs.RelayEnds.{fault_of, whole_end};
ghost use Rattle.wcp_relay.specs.declared.relay_end.RelayEnd.{RelayEnd};
ghost use Rattle.wcp_watch.specs.Seats.{SitsAt};
ghost use Rattle.wcp_watch.specs.Matching.{AreEndsThere, AreFirstMatched};
ghost use Rattle.wcp_watch.specs.declared.settle_fault.SettleFault.TheVariants as settle_fault;

use crate::lanes::match_lane;
use crate::rings::match_rings;
use crate::seats::empty;
use crate::settle_fault::SettleFault;
use wcp_clock::MAX_RELAYS;
use wcp_lane::{PutReceipt, TakeReceipt};
use wcp_model::Parent;
use wcp_relay::{Bundle, ProbeEnd, Receipts, RelayEnd};

/// A place for the inbox of each relay, and one for the root's.
const INBOXES: usize = MAX_RELAYS + 1;

/// Matches the links of one relay after another: its parent is lower, so the inbox that it put into is
/// there. `Err` where not all that was put into a ring or a lane was taken.
pub(crate) fn match_links(
    count: u32,
    probes: &mut [Option<ProbeEnd>],
    root: TakeReceipt<Bundle>,
    relays: &mut [Option<RelayEnd>],
) -> Result<(), SettleFault>
    requires { AreEndsThere count probes.old root relays.old }
    ensures exact { IsOk result ↔ AreFirstMatched count probes.old root relays.old }
    ensures fault { IfErr result (λ fault. fault ≡ settle_fault.Unfinished) }
{
    let mut inboxes: [Option<TakeReceipt<Bundle>>; INBOXES] = empty();
    inboxes[MAX_RELAYS] = Some(root);
    for number in 0..count as usize {
        let (parent, taken, put) = take_end(relays, number);
        match_lane(parent, put, &mut inboxes)?;
        match taken {
            Receipts::Feeds(feeds) => match_rings(feeds, probes)?,
            Receipts::Lane(receipt) => keep(&mut inboxes, number, receipt),
        }
    }
    Ok(())
}

/// Takes the end of a relay out of its place: the relay's parent, its receipts, and what it put.
fn take_end(
    relays: &mut [Option<RelayEnd>],
    number: usize,
) -> (Parent, Receipts, PutReceipt<Bundle>)
    requires { (end : RelayEnd) × SitsAt relays.old number end × (fault_of end ≡ None) }
    ensures sat { (own watch : ℕ) × SitsAt relays.old number (whole_end own watch result.0 result.1 result.2) }
    ensures gone { relays.new ≡ slice_set relays.old number None }
{
    prove!(number < relays.len());
    let Some(end) = relays[number].take() else {
        unreachable!();
    };
    match end.into_receipts() {
        Ok(left) => left,
        Err(_) => unreachable!(),
    }
}

/// Keeps the receipt of a relay's inbox.
fn keep(inboxes: &mut [Option<TakeReceipt<Bundle>>], number: usize, receipt: TakeReceipt<Bundle>)
    requires { number < length inboxes.old }
    ensures { inboxes.new ≡ slice_set inboxes.old number (Some receipt) }
{
    inboxes[number] = Some(receipt);
}
