ghost use Rattle.std.specs.Prelude.{◌≡◌, ℕ, OnOk, IfNone};

use crate::bundle::Bundle;
use crate::feed::Feed;
use crate::inner::run_inner;
use crate::leaf::run_leaf;
use crate::outlet::Outlet;
use crate::relay_end::Receipts;
use crate::take_fault::TakeFault;
use std::sync::Wait;
use wcp_lane::Taker;
use wcp_ring::Sleeper;

/// What a relay takes from.
#[derive(Drop)]
pub enum Source {
    /// A leaf serves processes, by a feed for each. It may sleep while all of them are quiet: the other ends of their
    /// rings are to ring bells of this sleeper.
    Leaf { feeds: Vec<Feed>, sleeper: Sleeper },
    /// Any other relay serves relays, by one lane.
    Inner { taker: Taker<Bundle> },
}

impl Source {
    ghost use Rattle.wcp_relay.specs.Feeding.{items_of, source_taken};
    ghost use Rattle.wcp_relay.specs.RelayWork.{IsAtWork, IsSameSource, IsSameOutlet, HasEnded, IsFromRings};
    ghost use Rattle.wcp_relay.specs.RelayEnds.{IsEndOfSource};

    /// Passes on what the relay takes, until a last note of each of its processes was taken.
    pub(crate) fn run<R: Wait>(&mut self, rt: &R, outlet: &mut Outlet) -> Result<(), TakeFault>
        requires { IsAtWork self.old outlet.old }
        ensures same_source { IsSameSource self.old self.new }
        ensures same_outlet { IsSameOutlet outlet.old outlet.new }
        ensures whole { OnOk result (IfNone outlet.new.cut
            ((p : ℕ) → items_of p outlet.new.putter.put ≡ source_taken self.new p)) }
        ensures ended { HasEnded self.new outlet.new result }
        ensures rings { IsFromRings self.new result }
    {
        match self {
            Source::Leaf { feeds, sleeper } => run_leaf(rt, feeds, sleeper, outlet),
            Source::Inner { taker } => {
                match run_inner(rt, taker, outlet) {
                    Ok(()) => Ok(()),
                    Err(cut) => Err(TakeFault::Cut(cut)),
                }
            }
        }
    }

    /// What is left of it.
    pub(crate) fn end(self) -> Receipts
        ensures { IsEndOfSource self result }
    {
        match self {
            Source::Leaf { feeds, sleeper: _ } => Receipts::Feeds(feeds),
            Source::Inner { taker } => Receipts::Lane(taker.end()),
        }
    }
}
