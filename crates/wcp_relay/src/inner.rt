ghost use Rattle.std.specs.Prelude.{◌≡◌, ℕ, true, [], ◌++◌, ◌↔◌, ◌<◌, IsTrue, IfOk, IfSome, IfNone, OnErr, OnOk};
ghost use Rattle.std.specs.FinSet as set;
ghost use Rattle.wcp_clock.specs.ProcessNumbers.{AreProcessNumbers};
ghost use Rattle.wcp_relay.specs.Feeding.{items_of};
ghost use Rattle.wcp_relay.specs.RelayWork.{IsInnerAtWork, IsSameOutlet, IsSameTaker, AreTakenNext, AreEnded};

use crate::bundle::Bundle;
use crate::outlet::Outlet;
use crate::patience::{self, CutTake};
use std::sync::Wait;
use wcp_clock::MAX_PROCS;
use wcp_lane::{Members, Origin, Taker};

/// Passes on what the lane gives, until a last note of each process of the putter was taken.
pub(crate) fn run_inner<R: Wait>(
    rt: &R,
    taker: &mut Taker<Bundle>,
    outlet: &mut Outlet,
) -> Result<(), CutTake>
    requires { IsInnerAtWork taker.old outlet.old }
    ensures same_taker { IsSameTaker taker.old taker.new }
    ensures same_outlet { IsSameOutlet outlet.old outlet.new }
    ensures work { IsInnerAtWork taker.new outlet.new }
    ensures ended { OnOk result (AreEnded outlet.new.putter.members (λ p. items_of p taker.new.taken)) }
    ensures empty { OnOk result (IfNone outlet.new.cut (outlet.new.hold.items ≡ [])) }
{
    let below = outlet.putter.members();
    let mut ended = Members::none();
    let mut finished = are_among(&below, &ended);
    for _ in rt.forever() {
        if finished {
            break;
        }
        let Some(bundle) = next_bundle(rt, taker, outlet.is_idle())? else {
            outlet.pass_on(rt);
            continue;
        };
        outlet.accept_all(rt, &bundle);
        let end = bundle.last_item();
        if end.last() {
            ended = ended.with(end.from);
            finished = are_among(&below, &ended);
        }
    }
    outlet.pass_on(rt);
    Ok(())
}

/// The lane's next bundle. Where it has none, this waits for one, or answers `None`.
fn next_bundle<R: Wait>(
    rt: &R,
    taker: &mut Taker<Bundle>,
    waits: bool,
) -> Result<Option<Bundle>, CutTake>
    ensures same { IsSameTaker taker.old taker.new }
    ensures some { IfOk result (λ found. IfSome found (λ bundle.
        AreTakenNext taker.old bundle
        × (taker.new ≡ record taker.old { taken = taker.old.taken ++ bundle }))) }
    ensures none { IfOk result (λ found. IfNone found (taker.new ≡ taker.old)) }
    ensures err { OnErr result (taker.new ≡ taker.old) }
{
    if waits {
        Ok(Some(patience::take(rt, taker)?))
    } else {
        patience::try_take(rt, taker)
    }
}

/// Whether each number of one set is in the other.
fn are_among(members: &Members, all: &Members) -> bool
    ensures among { IsTrue result
        ↔ ((p : ℕ) → set.contains members.now p ≡ true → set.contains all.now p ≡ true) }
    ensures within { AreProcessNumbers members.now }
{
    for p in 0..MAX_PROCS as u32 {
        if members.has(p) && !all.has(p) {
            return false;
        }
    }
    true
}
