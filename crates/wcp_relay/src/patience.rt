//! How a relay waits for a lane: it gives way to other threads some times, and then it waits inside the
//! lane. No clause says how long that takes, or that it ends.
ghost use Rattle.std.specs.Prelude.{◌≡◌, [], ◌∷◌, ◌++◌, IfOk, IfErr, OnOk, OnErr, IfSome, IfNone};
ghost use Rattle.wcp_relay.specs.RelayWork.{AreTakenNext, IsSameTaker, ItemsMayFollow};

use crate::bundle::Bundle;
use std::sync::Wait;
use std::thread;
use wcp_lane::{Cut, Putter, Taker};

/// How often a relay gives way before it waits inside the lane.
const YIELDS: u32 = 2;

/// A lane answered a take with this cut: only the takes of this module make one.
#[derive(Clone, Copy, Debug, PartialEq, Eq)]
pub(crate) struct CutTake {
    cut: Cut,
}

impl CutTake {
    /// What the lane answered.
    pub(crate) fn cut(&self) -> Cut
        ensures { result ≡ self.now.cut }
    {
        self.cut
    }
}

/// Takes the lane's next bundle, if it has one.
pub(crate) fn try_take<R: Wait>(
    rt: &R,
    taker: &mut Taker<Bundle>,
) -> Result<Option<Bundle>, CutTake>
    ensures same { IsSameTaker taker.old taker.new }
    ensures some { IfOk result (λ found. IfSome found (λ bundle.
        AreTakenNext taker.old bundle
        × (taker.new ≡ record taker.old { taken = taker.old.taken ++ bundle }))) }
    ensures none { IfOk result (λ found. IfNone found (taker.new ≡ taker.old)) }
    ensures err { OnErr result (taker.new ≡ taker.old) }
{
    match taker.try_take(rt) {
        Ok(found) => Ok(found),
        Err(cut) => Err(CutTake { cut }),
    }
}

/// Takes the lane's next bundle, and waits for one.
pub(crate) fn take<R: Wait>(rt: &R, taker: &mut Taker<Bundle>) -> Result<Bundle, CutTake>
    ensures same { IsSameTaker taker.old taker.new }
    ensures ok { IfOk result (λ bundle. AreTakenNext taker.old bundle
        × (taker.new ≡ record taker.old { taken = taker.old.taken ++ bundle })) }
    ensures err { OnErr result (taker.new ≡ taker.old) }
{
    for _ in 0..YIELDS {
        if let Some(bundle) = try_take(rt, taker)? {
            return Ok(bundle);
        }
        thread::yield_now();
    }
    match taker.take(rt) {
        Ok(bundle) => Ok(bundle),
        Err(cut) => Err(CutTake { cut }),
    }
}

/// Puts a bundle on the lane, and waits while it is full. `Err` hands the bundle back.
pub(crate) fn put<R: Wait>(
    rt: &R,
    putter: &mut Putter<Bundle>,
    bundle: Bundle,
) -> Result<(), (Cut, Bundle)>
    requires { ItemsMayFollow putter.old.members putter.old.put bundle }
    ensures same { (putter.new.lane ≡ putter.old.lane) × (putter.new.members ≡ putter.old.members) }
    ensures ok { OnOk result (putter.new ≡ record putter.old {
      messages = putter.old.messages ++ bundle ∷ [];
      put = putter.old.put ++ bundle;
    }) }
    ensures err { IfErr result (λ back. (back.1 ≡ bundle) × (putter.new ≡ putter.old)) }
{
    let mut bundle = bundle;
    for _ in 0..YIELDS {
        match putter.try_put(rt, bundle) {
            Ok(None) => return Ok(()),
            Ok(Some(back)) => bundle = back,
            Err(cut) => return Err(cut),
        }
        thread::yield_now();
    }
    putter.put(rt, bundle)
}
