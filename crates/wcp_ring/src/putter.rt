ghost use Rattle.std.specs.Prelude.{◌≡◌, ◌+◌, ◌<◌, ◌≤◌, [], ◌∷◌, ◌++◌, IsOk, OnOk, IfErr};

use crate::sleeper::{Bell, Sleeper};
use rtrb::Producer;
use std::alloc::{AllocError, Global};
use std::marker::Model;
use thiserror::Error;
use wcp_clock::Note;

/// The end of a ring that takes is gone, so nobody takes what is put. Only a look at the ring makes a value of it.
#[derive(Clone, Copy, Debug, PartialEq, Eq, Error)]
#[error("nobody takes from the ring any more")]
pub struct Gone(());

/// The end of a ring that puts notes. None of its calls takes memory but `new_sleeper`, and none waits.
#[derive(Drop)]
pub struct RingPutter {
    pub(crate) producer: Producer<Note>,
    /// Whether a note wakes nobody by itself.
    pub(crate) late: bool,
    /// After how many notes from now on it rouses the taker: once for each half of the room.
    pub(crate) until_rouse: usize,
    // Declared last, so that it rings after the producer is gone.
    pub(crate) bell: Option<Bell>,
}

impl Model for RingPutter {
    ghost use Rattle.wcp_ring.specs.Ends.{PutSide, put_side};

    ghost Value = { PutSide };

    ghost view = { λ p. put_side p.producer };
}

impl RingPutter {
    /// The same end, which from now on rings this bell: after each note that it puts, once for each half of the room so
    /// that it also ends a nap, and when it ends or is dropped.
    pub fn with_bell(self, bell: Bell) -> RingPutter
        ensures { result ≡ self }
    {
        let RingPutter {
            producer,
            late,
            until_rouse,
            bell: _,
        } = self;
        RingPutter {
            producer,
            late,
            until_rouse,
            bell: Some(bell),
        }
    }

    /// The same end, which from now on rings its bell late: not after each note that it puts, but once for each half
    /// of the room. A taker that sleeps doesn't see the notes between, so whoever puts calls [`RingPutter::tell`]
    /// before it waits for anything, or waits by a sleeper of [`RingPutter::new_sleeper`].
    pub fn ringing_late(self) -> RingPutter
        ensures { result ≡ self }
    {
        RingPutter { late: true, ..self }
    }

    /// A sleeper for the thread that puts, by which it waits for the answers of others. It looks on for them while that
    /// pays, and rings the bell of this end, if it has one, before it says that it sleeps. `Err` where memory runs out.
    pub fn new_sleeper(&self, alloc: Global) -> Result<Sleeper, AllocError> {
        let sleeper = Sleeper::new(alloc)?.looking_on();
        match &self.bell {
            Some(bell) => Ok(sleeper.with_bell(bell.try_clone()?)),
            None => Ok(sleeper),
        }
    }

    /// Puts the note, or hands it back where the ring has no free slot.
    #[inline(always)]
    pub fn try_put(&mut self, note: Note) -> Result<(), Note>
        ensures ring { self.new.ring ≡ self.old.ring }
        ensures ok { OnOk result ((self.new.put ≡ self.old.put ++ note ∷ []) × (self.old.free ≤ self.new.free + 1)) }
        ensures back { IfErr result (λ back. (back ≡ note) × (self.new.put ≡ self.old.put) × (self.new.free ≡ 0)) }
        ensures accepts { 0 < self.old.free → IsOk result }
    {
        if self.producer.is_full() {
            return Err(note);
        }
        self.producer.push_reserved(note);
        self.was_put();
        Ok(())
    }

    /// A note was put: rouses the taker where that is due, and else rings, unless it rings late.
    #[inline(always)]
    fn was_put(&mut self)
        ensures { self.new ≡ self.old }
    {
        let Some(bell) = &self.bell else {
            return;
        };
        if self.until_rouse > 1 {
            self.until_rouse -= 1;
            if !self.late {
                bell.ring();
            }
        } else {
            self.until_rouse = half_of_room(&self.producer);
            bell.rouse();
        }
    }

    /// Wakes the taker now for what was put, also from a nap, if it has a bell.
    #[inline(always)]
    pub fn tell(&self) {
        if let Some(bell) = &self.bell {
            bell.rouse();
        }
    }

    /// Whether the end that takes is there. `Err` once it was dropped: what is put from then on, nobody takes.
    pub fn linked(&mut self) -> Result<(), Gone>
        ensures ring { self.new.ring ≡ self.old.ring }
        ensures put { self.new.put ≡ self.old.put }
        ensures free { self.old.free ≤ self.new.free }
    {
        if self.producer.is_abandoned() {
            return Err(Gone(()));
        }
        Ok(())
    }

    /// Ends it: it puts no more.
    pub fn end(self) -> PutterEnd
        ensures ring { result.ring ≡ self.ring }
        ensures put { result.put ≡ self.put }
    {
        PutterEnd {
            producer: self.producer,
        }
    }
}

/// Half of the slots of a ring, and at least one.
pub(crate) fn half_of_room(producer: &Producer<Note>) -> usize {
    (producer.capacity() / 2).max(1)
}

/// What is left of an end that puts no more.
#[derive(Drop)]
pub struct PutterEnd {
    pub(crate) producer: Producer<Note>,
}

impl Model for PutterEnd {
    ghost use Rattle.wcp_ring.specs.Ends.{EndedSide, ended_side};

    ghost Value = { EndedSide };

    ghost view = { λ p. ended_side p.producer };
}
