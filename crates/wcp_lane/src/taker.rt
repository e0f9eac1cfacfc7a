ghost use Rattle.std.specs.Prelude.{◌≡◌, ◌<◌, ◌++◌, IfOk, IfSome, IfNone, OnErr};
ghost use Rattle.std.specs.FinSet as set;
ghost use Rattle.wcp_clock.specs.Limits.{most_processes};
ghost use Rattle.wcp_lane.specs.Message.{AllMayFollow};

use crate::counts::{Counts, Span, count_up};
use crate::fault::Cut;
use crate::members::Members;
use crate::message::Origin;
use crate::passes::{LanePass, LaneReceiver, Takes};
use crossbeam_channel::TryRecvError;
use std::marker::Model;
use std::sync::Wait;

/// The end of a lane that takes.
///
/// A contract sees it as its lane and the room of that, the numbers of the lane's sets and the items that it has taken.
#[derive(Drop)]
pub struct Taker<M: Origin> {
    pub(crate) receiver: LaneReceiver<M>,
    pub(crate) pass: LanePass<M>,
    pub(crate) members: Members,
    pub(crate) counts: Counts,
}

impl<M: Origin> Model for Taker<M> {
    ghost use Rattle.std.specs.Prelude.{◌≡◌};
    ghost use Rattle.std.specs.List.{flat_map};
    ghost use Rattle.crossbeam_channel.specs.Ends.{receives_on, ruled_capacity};
    ghost use Rattle.crossbeam_channel.specs.Claims.{IsSeatAt};
    ghost use Rattle.wcp_lane.specs.Passes.{taker, IsRest};
    ghost use Rattle.wcp_lane.specs.Ends.{TakeEnd, lane_of, hand_of, unowned_by, AreCounts};
    ghost use Rattle.std.specs.Coded.{codes};
    ghost use Rattle.wcp_lane.specs.Passes.{numbers_code};

    ghost Value = { TakeEnd M M.Item };

    ghost coded = { Prim.hlevel (codes, numbers_code) };

    ghost view = { λ s. record {
      lane = lane_of s.pass;
      room = ruled_capacity (receives_on s.receiver);
      members = s.members;
      taken = flat_map M.items (hand_of s.pass).taken;
    } };

    ghost invariant = { λ s.
        IsSeatAt (receives_on s.receiver) s.pass
        × (hand_of s.pass ≡ taker (unowned_by (hand_of s.pass)) (hand_of s.pass).taken)
        × IsRest s.members (unowned_by (hand_of s.pass))
        × AreCounts M.origin s.counts (flat_map M.items (hand_of s.pass).taken) };
}

impl<M: Origin> Taker<M> {
    /// The members of all putters of the lane.
    pub fn members(&self) -> Members
        ensures { result ≡ self.now.members }
    {
        self.members
    }

    /// Takes the next message, and waits for one.
    pub fn take<R: Wait>(&mut self, rt: &R) -> Result<M, Cut>
        ensures same { (self.new.lane ≡ self.old.lane) × (self.new.members ≡ self.old.members) }
        ensures ok { IfOk result (λ message.
            AllMayFollow M.origin M.place M.last self.old.members self.old.taken (M.items message)
            × (self.new ≡ record self.old { taken = self.old.taken ++ M.items message })) }
        ensures err { OnErr result (self.new ≡ self.old) }
    {
        match self.receiver.recv_as::<Takes, R>(rt, &mut self.pass) {
            Ok(message) => {
                count_up::<M>(&mut self.counts, &Span::of(&message));
                Ok(message)
            }
            Err(_) => Err(Cut(())),
        }
    }

    /// Takes the next message, if there is one.
    pub fn try_take<R: Wait>(&mut self, rt: &R) -> Result<Option<M>, Cut>
        ensures same { (self.new.lane ≡ self.old.lane) × (self.new.members ≡ self.old.members) }
        ensures some { IfOk result (λ found. IfSome found (λ message.
            AllMayFollow M.origin M.place M.last self.old.members self.old.taken (M.items message)
            × (self.new ≡ record self.old { taken = self.old.taken ++ M.items message }))) }
        ensures none { IfOk result (λ found. IfNone found (self.new ≡ self.old)) }
        ensures err { OnErr result (self.new ≡ self.old) }
    {
        match self.receiver.try_recv_as::<Takes, R>(rt, &mut self.pass) {
            Ok(message) => {
                count_up::<M>(&mut self.counts, &Span::of(&message));
                Ok(Some(message))
            }
            Err(TryRecvError::Empty) => Ok(None),
            Err(TryRecvError::Disconnected) => Err(Cut(())),
        }
    }

    /// Ends it. What is still put is handed back.
    pub fn end(self) -> TakeReceipt<M>
        ensures lane { result.lane ≡ self.lane }
        ensures members { result.members ≡ self.members }
        ensures matched { result.matched ≡ set.empty }
        ensures taken { result.taken ≡ self.taken }
    {
        let Taker {
            receiver: _,
            pass,
            members,
            counts,
        } = self;
        TakeReceipt {
            pass,
            members,
            counts,
            matched: Members::none(),
        }
    }
}

/// What is left of a taker.
///
/// A contract sees it as its lane, the numbers of the lane's sets, those of the putters that it was
/// reconciled with, and what was taken.
#[derive(Drop)]
pub struct TakeReceipt<M: Origin> {
    pub(crate) pass: LanePass<M>,
    pub(crate) members: Members,
    pub(crate) counts: Counts,
    pub(crate) matched: Members,
}

impl<M: Origin> Model for TakeReceipt<M> {
    ghost use Rattle.std.specs.Prelude.{◌≡◌, true, []};
    ghost use Rattle.std.specs.List.{flat_map};
    ghost use Rattle.wcp_lane.specs.Ends.{TakenEnd, lane_of, hand_of, AreCounts};
    ghost use Rattle.std.specs.Coded.{codes};
    ghost use Rattle.wcp_lane.specs.Passes.{numbers_code};

    ghost Value = { TakenEnd M M.Item };

    ghost coded = { Prim.hlevel (codes, numbers_code) };

    ghost view = { λ s. record {
      lane = lane_of s.pass;
      members = s.members;
      matched = s.matched;
      taken = flat_map M.items (hand_of s.pass).taken;
    } };

    ghost invariant = { λ s.
        ((hand_of s.pass).takes ≡ true)
        × (s.pass.me.1 ≡ [])
        × AreCounts M.origin s.counts (flat_map M.items (hand_of s.pass).taken) };
}

impl<M: Origin> TakeReceipt<M> {
    /// The members of all putters of the lane.
    pub fn members(&self) -> Members
        ensures { result ≡ self.now.members }
    {
        self.members
    }

    /// Whether `p` is a number of a putter that it was reconciled with.
    pub fn matched(&self, p: u32) -> bool
        requires { p < most_processes }
        ensures { result ≡ set.contains self.now.matched p }
    {
        self.matched.has(p)
    }
}
