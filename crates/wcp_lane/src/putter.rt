ghost use Rattle.std.specs.Prelude.{◌≡◌, [], ◌∷◌, ◌++◌, OnOk, IfOk, IfErr, IfSome, IfNone};
ghost use Rattle.wcp_lane.specs.Message.{AllMayFollow};
ghost use Rattle.wcp_lane.specs.Ends.{PutEnd};

use crate::counts::{Counts, Span, count_up};
use crate::fault::Cut;
use crate::members::Members;
use crate::message::Origin;
use crate::passes::{LanePass, LaneSender, Puts};
use crossbeam_channel::TrySendError;
use std::marker::Model;
use std::sync::Wait;

/// An end of a lane that puts messages of the processes of a set, its members.
///
/// A contract sees it as its lane, its set, the messages that it has put and their items.
#[derive(Drop)]
pub struct Putter<M: Origin> {
    pub(crate) sender: LaneSender<M>,
    pub(crate) pass: LanePass<M>,
    pub(crate) members: Members,
    pub(crate) counts: Counts,
}

impl<M: Origin> Model for Putter<M> {
    ghost use Rattle.std.specs.Prelude.{◌≡◌};
    ghost use Rattle.std.specs.List.{flat_map};
    ghost use Rattle.crossbeam_channel.specs.Ends.{sends_on};
    ghost use Rattle.crossbeam_channel.specs.Claims.{IsSeatAt};
    ghost use Rattle.wcp_lane.specs.Passes.{putter};
    ghost use Rattle.wcp_clock.specs.ProcessNumbers.{AreProcessNumbers};
    ghost use Rattle.wcp_lane.specs.Ends.{PutEnd, lane_of, hand_of, put_by, AreCounts};
    ghost use Rattle.std.specs.Coded.{codes};
    ghost use Rattle.wcp_lane.specs.Passes.{numbers_code};

    ghost Value = { PutEnd M M.Item };

    ghost coded = { Prim.hlevel (codes, numbers_code) };

    ghost view = { λ s. record {
      lane = lane_of s.pass;
      members = s.members;
      messages = put_by (hand_of s.pass);
      put = flat_map M.items (put_by (hand_of s.pass));
    } };

    ghost invariant = { λ s.
        IsSeatAt (sends_on s.sender) s.pass
        × (hand_of s.pass ≡ putter s.members (put_by (hand_of s.pass)))
        × AreProcessNumbers s.members
        × AreCounts M.origin s.counts (flat_map M.items (put_by (hand_of s.pass))) };
}

impl<M: Origin> Putter<M> {
    /// The processes of which it puts.
    pub fn members(&self) -> Members
        ensures { result ≡ self.now.members }
    {
        self.members
    }

    /// Puts a message, and waits while the lane is full. `Err` hands the message back.
    pub fn put<R: Wait>(&mut self, rt: &R, message: M) -> Result<(), (Cut, M)>
        requires { AllMayFollow M.origin M.place M.last self.old.members self.old.put (M.items message) }
        ensures same { (self.new.lane ≡ self.old.lane) × (self.new.members ≡ self.old.members) }
        ensures ok { OnOk result (self.new ≡ record self.old {
          messages = self.old.messages ++ message ∷ [];
          put = self.old.put ++ M.items message;
        }) }
        ensures err { IfErr result (λ e. (e.1 ≡ message) × (self.new ≡ self.old)) }
    {
        let span = Span::of(&message);
        match self.sender.send_as::<Puts, R>(rt, &mut self.pass, message) {
            Ok(()) => {
                count_up::<M>(&mut self.counts, &span);
                Ok(())
            }
            Err(error) => Err((Cut(()), error.into_inner())),
        }
    }

    /// Puts a message if there is room for it. `Ok` hands it back where the lane is full, `Err` where it
    /// is cut.
    pub fn try_put<R: Wait>(&mut self, rt: &R, message: M) -> Result<Option<M>, (Cut, M)>
        requires { AllMayFollow M.origin M.place M.last self.old.members self.old.put (M.items message) }
        ensures same { (self.new.lane ≡ self.old.lane) × (self.new.members ≡ self.old.members) }
        ensures put { IfOk result (λ back. IfNone back
            (self.new ≡ record self.old {
              messages = self.old.messages ++ message ∷ [];
              put = self.old.put ++ M.items message;
            })) }
        ensures full { IfOk result (λ back. IfSome back (λ full. (full ≡ message) × (self.new ≡ self.old))) }
        ensures err { IfErr result (λ e. (e.1 ≡ message) × (self.new ≡ self.old)) }
    {
        let span = Span::of(&message);
        match self
            .sender
            .try_send_as::<Puts, R>(rt, &mut self.pass, message)
        {
            Ok(()) => {
                count_up::<M>(&mut self.counts, &span);
                Ok(None)
            }
            Err(TrySendError::Full(back)) => Ok(Some(back)),
            Err(error) => Err((Cut(()), error.into_inner())),
        }
    }

    /// Ends it. The receipt keeps the lane open.
    pub fn end(self) -> PutReceipt<M>
        ensures { result ≡ self }
    {
        PutReceipt { putter: self }
    }
}

/// What is left of a putter.
#[derive(Drop)]
pub struct PutReceipt<M: Origin> {
    pub(crate) putter: Putter<M>,
}

impl<M: Origin> Model for PutReceipt<M> {
    ghost use Rattle.wcp_lane.specs.Ends.{PutEnd};
    ghost use Rattle.std.specs.Coded.{codes};
    ghost use Rattle.wcp_lane.specs.Passes.{numbers_code};

    ghost Value = { PutEnd M M.Item };

    ghost coded = { Prim.hlevel (codes, numbers_code) };

    ghost view = { λ s. s.putter };
}

impl<M: Origin> PutReceipt<M> {
    /// The processes of which the putter put.
    pub fn members(&self) -> Members
        ensures { result ≡ self.now.members }
    {
        self.putter.members()
    }
}
