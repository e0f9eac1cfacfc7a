ghost use Rattle.std.specs.Prelude.{◌≡◌, ◌<◌, ℕ, length, IfNone};
ghost use mathlib.Core.List.{IsPrefix};
ghost use Rattle.wcp_relay.specs.Feeding.{Serves, Serves-prop};

use crate::bundle::Bundle;
use crate::outlet::Outlet;
use crate::relay_end::{RelayEnd, RelayOutcome, first_fault};
use crate::source::Source;
use std::snapshot::Snapshot;
use std::sync::Wait;
use wcp_hold::Hold;
use wcp_lane::Putter;
use wcp_model::Parent;

/// A relay of a tree that didn't run yet: it has what it takes from and the end of its parent's lane
/// that puts what it took.
#[derive(Drop)]
pub struct Relay {
    number: u32,
    /// The number of its watch.
    watch: u64,
    parent: Parent,
    source: Source,
    putter: Putter<Bundle>,
    hold: Hold,
    pub ghost room: { 0 < hold.room },
    pub ghost nothing_held: { length hold.items ≡ 0 },
    pub ghost nothing_put: { length putter.put ≡ 0 },
    pub ghost serves: { Serves source putter.members } by { Serves-prop source putter.members },
}

impl Relay {
    ghost use Rattle.wcp_relay.specs.RelayWork.{AreEnded};
    ghost use Rattle.wcp_relay.specs.RelayEnds.{AreReceiptsOf, IsEndFromRings, IsFirstFault, relay_taken, relay_put};
    ghost use Rattle.wcp_relay.specs.RelayEnds.{fault_of, number_of, watch_of};

    /// The relay of this number in the plan of a watch, under this parent: it is to pass on what this source gives, to
    /// the lane of this putter. It holds what it can't put yet in this hold, which is empty.
    pub fn new(
        number: u32,
        watch: u64,
        parent: Parent,
        source: Source,
        putter: Putter<Bundle>,
        hold: Hold,
    ) -> Relay
        requires room { 0 < hold.room }
        requires nothing_held { length hold.items ≡ 0 }
        requires nothing_put { length putter.put ≡ 0 }
        requires serves { Serves source putter.members }
        ensures number { result.number ≡ number }
        ensures watch { result.watch ≡ watch }
        ensures parent { result.parent ≡ parent }
        ensures source { result.source ≡ source }
        ensures putter { result.putter ≡ putter }
        ensures hold { result.hold ≡ hold }
    {
        Relay {
            number,
            watch,
            parent,
            source,
            putter,
            hold,
        }
    }

    /// Its number in the plan.
    pub fn number(&self) -> u32
        ensures { result ≡ self.now.number }
    {
        self.number
    }

    /// Moves items from its rings, or from its lane, to its parent's lane, until a last note of each
    /// process below it was passed on, or until a fault comes. A gap, or a cut as it takes, ends it at
    /// once. After a cut as it puts it goes on taking, so that nobody below waits for room. It is to pass
    /// on what it holds before it waits for more, which no clause says, and takes no memory.
    pub fn run<R: Wait>(self, rt: &R) -> RelayEnd
        ensures number { number_of result ≡ self.number }
        ensures watch { watch_of result ≡ self.watch }
        ensures receipts { AreReceiptsOf self result }
        ensures prefix { (p : ℕ) → IsPrefix (relay_put result p) (relay_taken result p) }
        ensures whole { IfNone (fault_of result) ((p : ℕ) → relay_put result p ≡ relay_taken result p) }
        ensures ended { IfNone (fault_of result) (AreEnded self.putter.members (relay_taken result)) }
        ensures fault { IsFirstFault result }
        ensures rings { IsEndFromRings result }
    {
        let Relay {
            number,
            watch,
            parent,
            mut source,
            putter,
            hold,
        } = self;
        let mut outlet = Outlet {
            putter,
            hold,
            cut: None,
        };
        let met = source.run(rt, &mut outlet);
        let Some(fault) = first_fault(&outlet, met) else {
            return RelayEnd {
                number,
                watch,
                outcome: RelayOutcome::Whole {
                    parent,
                    taken: source.end(),
                    put: outlet.putter.end(),
                },
            };
        };
        RelayEnd {
            number,
            watch,
            outcome: RelayOutcome::Faulted {
                fault,
                source: Snapshot::of(&source),
                outlet: Snapshot::of(&outlet),
                met: Snapshot::of(&met),
            },
        }
    }
}
