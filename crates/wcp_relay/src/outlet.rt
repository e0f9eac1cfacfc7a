ghost use Rattle.std.specs.Prelude.{◌≡◌, ◌↔◌, ℕ, true, List, [], ◌∷◌, ◌++◌, drop, IsTrue, IfSome, IfNone};
ghost use Rattle.std.specs.FinSet as set;
ghost use Rattle.wcp_relay.specs.Bundles.{IsFirstBundle};
ghost use Rattle.wcp_relay.specs.Feeding.{items_of};

use crate::bundle::Bundle;
use crate::patience;
use std::sync::Wait;
use wcp_clock::Item;
use wcp_hold::Hold;
use wcp_lane::{Cut, Putter};

/// Where a relay puts what it took: its hold, and then its parent's lane.
#[derive(Drop)]
pub(crate) struct Outlet {
    pub(crate) putter: Putter<Bundle>,
    pub(crate) hold: Hold,
    /// What the lane answered to the first bundle that it refused. Nothing is put afterwards.
    pub(crate) cut: Option<Cut>,
}

impl Outlet {
    ghost use Rattle.wcp_relay.specs.RelayWork.{handed, IsFaithful, IsSound, IsNextItem, IsSameOutlet, ItemsMayFollow};
    ghost use Rattle.wcp_relay.specs.RelayWork.{HasPutBundles};

    /// Whether there is nothing to pass on.
    pub(crate) fn is_idle(&self) -> bool
        ensures { IsTrue result ↔ IfNone self.now.cut (self.now.hold.items ≡ []) }
    {
        self.cut.is_some() || self.hold.len() == 0
    }

    /// Takes an item in, and passes on what it holds where it is full. Once the lane is cut, the item
    /// is let go.
    pub(crate) fn accept<R: Wait>(&mut self, rt: &R, item: Item)
        requires sound { IsSound self.old }
        requires owned { IfNone self.old.cut (set.contains self.old.putter.members item.from ≡ true) }
        requires next { IfNone self.old.cut (IsNextItem (handed self.old) item) }
        ensures same { IsSameOutlet self.old self.new }
        ensures sound { IsSound self.new }
        ensures handed { IfNone self.new.cut
            ((self.old.cut ≡ None) × (handed self.new ≡ handed self.old ++ item ∷ [])) }
        ensures let_go { IfSome self.new.cut (λ cut. handed self.new ≡ handed self.old) }
        ensures cut { IfSome self.old.cut (λ cut. self.new.cut ≡ Some cut) }
    {
        if self.cut.is_some() {
            return;
        }
        let Err(item) = self.hold.push(item) else {
            return;
        };
        self.pass_on(rt);
        if self.cut.is_none() {
            let _ = self.hold.push(item);
        }
    }

    /// Takes the items of a bundle in, one after another.
    pub(crate) fn accept_all<R: Wait>(&mut self, rt: &R, bundle: &Bundle)
        requires sound { IsSound self.old }
        requires follow { IfNone self.old.cut (ItemsMayFollow self.old.putter.members (handed self.old) bundle.now) }
        ensures same { IsSameOutlet self.old self.new }
        ensures sound { IsSound self.new }
        ensures handed { IfNone self.new.cut
            ((self.old.cut ≡ None) × (handed self.new ≡ handed self.old ++ bundle.now)) }
        ensures faithful { (taken : ℕ → List Item) → IsFaithful taken self.old
            → IsFaithful (λ p. taken p ++ items_of p bundle.now) self.new }
    {
        let items = bundle.items();
        for item in items {
            self.accept(rt, *item);
        }
    }

    /// Puts all that it holds on the lane, in bundles that are as long as they can be, or as many of them as the lane
    /// takes before it is cut.
    pub(crate) fn pass_on<R: Wait>(&mut self, rt: &R)
        requires { IsSound self.old }
        ensures same { IsSameOutlet self.old self.new }
        ensures sound { IsSound self.new }
        ensures handed { handed self.new ≡ handed self.old }
        ensures empty { IfNone self.new.cut ((self.old.cut ≡ None) × (self.new.hold.items ≡ [])) }
        ensures bundles { HasPutBundles self.old.hold.items self.new.hold.items self.old self.new }
        ensures cut { IfSome self.old.cut (λ cut. self.new.cut ≡ Some cut) }
    {
        if self.cut.is_some() {
            return;
        }
        while let Some(bundle) = first_bundle(&self.hold) {
            let count = bundle.len();
            if let Err((cut, _)) = patience::put(rt, &mut self.putter, bundle) {
                self.cut = Some(cut);
                return;
            }
            let_go(&mut self.hold, count);
        }
    }
}

/// The longest run of one process at the front of a hold, or as much of it as a bundle has room for.
fn first_bundle(hold: &Hold) -> Option<Bundle>
    ensures some { IfSome result (λ bundle. IsFirstBundle hold.now.items bundle) }
    ensures none { IfNone result (hold.now.items ≡ []) }
{
    let Some(first) = hold.front() else {
        return None;
    };
    let mut bundle = Bundle::one(first);
    while let Some(item) = hold.get(bundle.len()) {
        if let Err(_) = bundle.add(item) {
            return Some(bundle);
        }
    }
    Some(bundle)
}

/// Lets go of so many items at the front of a hold.
fn let_go(hold: &mut Hold, count: usize)
    ensures { hold.new ≡ record hold.old { items = drop count hold.old.items } }
{
    for _ in 0..count {
        let _ = hold.pop();
    }
}
