ghost use Rattle.std.specs.Prelude.{◌≡◌, ◌<◌, ℕ, true, [], length, All, IfErr, OnOk, IfNone, Err};
ghost use Rattle.wcp_relay.specs.Feeding.{fed, AreFromRings};
ghost use Rattle.wcp_relay.specs.RelayWork.{IsLeafAtWork, AreSameFeeds, IsSameOutlet, HasMetGap, gap_met};
ghost use Rattle.wcp_relay.specs.declared.feed.Gap.{Gap};
ghost use Rattle.wcp_relay.specs.declared.take_fault.TakeFault.TheVariants as fault;

use crate::bundle::MAX_BUNDLE;
use crate::feed::Feed;
use crate::outlet::Outlet;
use crate::take_fault::TakeFault;
use std::sync::Wait;
use wcp_ring::Sleeper;

/// Passes on what the feeds take, until each has taken a last note.
pub(crate) fn run_leaf<R: Wait>(
    rt: &R,
    feeds: &mut [Feed],
    sleeper: &mut Sleeper,
    outlet: &mut Outlet,
) -> Result<(), TakeFault>
    requires { IsLeafAtWork feeds.old outlet.old }
    ensures same_feeds { AreSameFeeds feeds.old feeds.new }
    ensures same_outlet { IsSameOutlet outlet.old outlet.new }
    ensures work { OnOk result (IsLeafAtWork feeds.new outlet.new) }
    ensures ended { OnOk result (All (λ feed. feed.ended ≡ true) feeds.new) }
    ensures empty { OnOk result (IfNone outlet.new.cut (outlet.new.hold.items ≡ [])) }
    ensures gap { IfErr result (λ met. (gap : Gap) × (met ≡ fault.Gap gap) × HasMetGap gap (fed feeds.new) outlet.new) }
    ensures rings { IfErr result (λ met. AreFromRings (gap_met (Err met)) feeds.new) }
{
    for _ in rt.forever() {
        let any = take_round(rt, feeds, outlet)?;
        if feeds.iter().all(|feed| feed.ended) {
            break;
        }
        if any {
            sleeper.stir();
            continue;
        }
        if outlet.is_idle() {
            sleeper.rest(rt);
        } else {
            outlet.pass_on(rt);
        }
    }
    outlet.pass_on(rt);
    Ok(())
}

/// Takes what the feeds have, from each at most so many notes as go into one bundle. `Ok` says whether any had one.
fn take_round<R: Wait>(rt: &R, feeds: &mut [Feed], outlet: &mut Outlet) -> Result<bool, TakeFault>
    requires { IsLeafAtWork feeds.old outlet.old }
    ensures same_feeds { AreSameFeeds feeds.old feeds.new }
    ensures same_outlet { IsSameOutlet outlet.old outlet.new }
    ensures work { OnOk result (IsLeafAtWork feeds.new outlet.new) }
    ensures gap { IfErr result (λ met. (gap : Gap) × (met ≡ fault.Gap gap) × HasMetGap gap (fed feeds.new) outlet.new) }
    ensures rings { IfErr result (λ met. AreFromRings (gap_met (Err met)) feeds.new) }
{
    let mut any = false;
    for place in 0..feeds.len() {
        if take_burst(rt, feeds, place, outlet)? {
            any = true;
        }
    }
    Ok(any)
}

/// Takes from one feed, until it has nothing or a bundle may be full. `Ok` says whether it had a note.
fn take_burst<R: Wait>(
    rt: &R,
    feeds: &mut [Feed],
    place: usize,
    outlet: &mut Outlet,
) -> Result<bool, TakeFault>
    requires place { place < length feeds.old }
    requires work { IsLeafAtWork feeds.old outlet.old }
    ensures same_feeds { AreSameFeeds feeds.old feeds.new }
    ensures same_outlet { IsSameOutlet outlet.old outlet.new }
    ensures work { OnOk result (IsLeafAtWork feeds.new outlet.new) }
    ensures gap { IfErr result (λ met. (gap : Gap) × (met ≡ fault.Gap gap) × HasMetGap gap (fed feeds.new) outlet.new) }
    ensures rings { IfErr result (λ met. AreFromRings (gap_met (Err met)) feeds.new) }
{
    let mut any = false;
    for _ in 0..MAX_BUNDLE {
        let feed = &mut feeds[place];
        if let Some(item) = feed.take(outlet)? {
            outlet.accept(rt, item);
            any = true;
        }
    }
    Ok(any)
}
