ghost use Rattle.std.specs.Prelude.{◌≡◌, ◌<◌, [], ◌∷◌, ◌++◌, length, IsSome, IfSome, IfNone};
ghost use mathlib.Core.List.{IsPrefix};

use crate::sleeper::Bell;
use rtrb::Consumer;
use std::marker::Model;
use wcp_clock::Note;

/// The end of a ring that takes notes. None of its calls takes memory, and none waits.
#[derive(Drop)]
pub struct RingTaker {
    pub(crate) consumer: Consumer<Note>,
    // Declared last, so that it rings after the consumer is gone.
    pub(crate) bell: Option<Bell>,
}

impl Model for RingTaker {
    ghost use Rattle.wcp_ring.specs.Ends.{TakeSide, take_side};

    ghost Value = { TakeSide };

    ghost view = { λ t. take_side t.consumer };
}

impl RingTaker {
    /// The same end, which from now on rings this bell: where a thread sleeps, once half of the room is free, and when
    /// it is dropped.
    pub fn with_bell(self, bell: Bell) -> RingTaker
        ensures { result ≡ self }
    {
        let RingTaker { consumer, bell: _ } = self;
        RingTaker {
            consumer,
            bell: Some(bell),
        }
    }

    /// The ring's next note, if it has one.
    pub fn try_take(&mut self) -> Option<Note>
        ensures ring { self.new.ring ≡ self.old.ring }
        ensures some { IfSome result (λ note. self.new.taken ≡ self.old.taken ++ note ∷ []) }
        ensures next { IfSome result (λ note. IsPrefix self.old.seen (note ∷ self.new.seen)) }
        ensures none { IfNone result ((self.new.taken ≡ self.old.taken) × (self.new.seen ≡ [])) }
        ensures gives { 0 < length self.old.seen → IsSome result }
    {
        let note = self.take_next()?;
        self.tell_of_room();
        Some(note)
    }

    /// The ring's next note, if it has one, of which the putter is not told.
    #[inline(always)]
    fn take_next(&mut self) -> Option<Note>
        ensures ring { self.new.ring ≡ self.old.ring }
        ensures some { IfSome result (λ note. self.new.taken ≡ self.old.taken ++ note ∷ []) }
        ensures next { IfSome result (λ note. IsPrefix self.old.seen (note ∷ self.new.seen)) }
        ensures none { IfNone result ((self.new.taken ≡ self.old.taken) × (self.new.seen ≡ [])) }
        ensures gives { 0 < length self.old.seen → IsSome result }
    {
        self.consumer.pop().ok()
    }

    /// Wakes a putter that sleeps once half of the room is free, so that it puts many notes each time that it wakes.
    fn tell_of_room(&mut self)
        ensures ring { self.new.ring ≡ self.old.ring }
        ensures taken { self.new.taken ≡ self.old.taken }
        ensures seen { IsPrefix self.old.seen self.new.seen }
    {
        let Some(bell) = &self.bell else {
            return;
        };
        if bell.is_awaited() && self.consumer.slots() <= self.consumer.capacity() / 2 {
            bell.ring();
        }
    }

    /// Whether the other end was dropped, or what was left of it. What it put before is still there: who asks this
    /// first, and then finds the ring empty, has taken all. No clause says when it is true; tests show that.
    pub fn gone(&mut self) -> bool
        ensures ring { self.new.ring ≡ self.old.ring }
        ensures taken { self.new.taken ≡ self.old.taken }
        ensures seen { IsPrefix self.old.seen self.new.seen }
    {
        self.consumer.is_abandoned()
    }
}
