//! The places of a queue, which are used in turn.
ghost use Rattle.std.specs.Prelude.{◌≡◌, ◌≢◌, OnOk, IfErr, IfOk, IfSome, None};
ghost use Rattle.wullaphi.specs.WatchedLocks.{TakesAndSends, TakesOrLeavesNone};

use crate::left_stamp::LeftStamp;
use crate::lent_probe::{LentProbe, Loan};
use crate::run_message::RunMessage;
use std::alloc::{AllocError, Global};
use wcp_probe::Refusal;

/// A place for an item, and the stamp of who got what was there before.
#[derive(Drop)]
struct Place<T> {
    item: Option<RunMessage<T>>,
    freed: LeftStamp,
}

/// The places of a queue, where the next item is put, and from where the next one is got.
#[derive(Drop)]
pub struct Places<T> {
    places: Vec<Place<T>>,
    next_put: usize,
    next_got: usize,
}

impl<T: Drop> Place<T> {
    /// Puts this, unless the place has an item: then it comes back.
    fn put<L: Loan>(
        &mut self,
        probe: &mut LentProbe<L>,
        value: T,
    ) -> Result<Option<T>, (Refusal, T)>
        ensures put { IfOk result (λ back. back ≡ None → TakesAndSends probe.old probe.new) }
        ensures full { IfOk result (λ back. IfSome back (λ same. (same ≡ value) × (probe.new ≡ probe.old))) }
        ensures refused { IfErr result (λ back. TakesOrLeavesNone back.0 probe.old probe.new) }
        ensures back { IfErr result (λ back. back.1 ≡ value) }
    {
        if self.item.is_some() {
            return Ok(Some(value));
        }
        self.freed.start_over(probe);
        if let Err(why) = probe.take_last(&self.freed) {
            return Err((why, value));
        }
        self.item = Some(RunMessage::send(probe, value)?);
        Ok(None)
    }

    /// Gets the item, if the place has one.
    fn get<L: Loan>(&mut self, probe: &mut LentProbe<L>) -> Result<Option<T>, Refusal>
        ensures got { IfOk result (λ got. got ≢ None → TakesAndSends probe.old probe.new) }
        ensures empty { IfOk result (λ got. got ≡ None → probe.new ≡ probe.old) }
        ensures refused { IfErr result (λ why. TakesOrLeavesNone why probe.old probe.new) }
    {
        let Some(sent) = self.item.take() else {
            return Ok(None);
        };
        if let Err(why) = self.take_and_free(probe, &sent) {
            self.item = Some(sent);
            return Err(why);
        }
        Ok(Some(sent.into_value()))
    }

    /// Takes the stamp of what was sent, and leaves one for who puts the next item here.
    fn take_and_free<L: Loan>(
        &mut self,
        probe: &mut LentProbe<L>,
        sent: &RunMessage<T>,
    ) -> Result<(), Refusal>
        ensures taken { OnOk result (TakesAndSends probe.old probe.new) }
        ensures refused { IfErr result (λ why. TakesOrLeavesNone why probe.old probe.new) }
    {
        probe.take_of_run(sent)?;
        self.freed.start_over(probe);
        self.freed.leave(probe)
    }
}

impl<T: Drop> Places<T> {
    /// So many places, with no item. `Err` where memory runs out.
    pub(crate) fn new(alloc: Global, room: usize) -> Result<Places<T>, AllocError> {
        let mut places = Vec::with_capacity(alloc, room)?;
        for _ in 0..room {
            places.push(Place {
                item: None,
                freed: LeftStamp::none(),
            })?;
        }
        Ok(Places {
            places,
            next_put: 0,
            next_got: 0,
        })
    }

    /// Puts this into the next place, if there is room: else it comes back.
    pub(crate) fn put<L: Loan>(
        &mut self,
        probe: &mut LentProbe<L>,
        value: T,
    ) -> Result<Option<T>, (Refusal, T)>
        ensures put { IfOk result (λ back. back ≡ None → TakesAndSends probe.old probe.new) }
        ensures full { IfOk result (λ back. IfSome back (λ same. (same ≡ value) × (probe.new ≡ probe.old))) }
        ensures refused { IfErr result (λ back. TakesOrLeavesNone back.0 probe.old probe.new) }
        ensures back { IfErr result (λ back. back.1 ≡ value) }
    {
        let Some(place) = self.places.get_mut(self.next_put) else {
            return Ok(Some(value));
        };
        let back = place.put(probe, value)?;
        if back.is_none() {
            self.next_put = self.place_after(self.next_put);
        }
        Ok(back)
    }

    /// Gets the next item, if there is one.
    pub(crate) fn get<L: Loan>(&mut self, probe: &mut LentProbe<L>) -> Result<Option<T>, Refusal>
        ensures got { IfOk result (λ got. got ≢ None → TakesAndSends probe.old probe.new) }
        ensures empty { IfOk result (λ got. got ≡ None → probe.new ≡ probe.old) }
        ensures refused { IfErr result (λ why. TakesOrLeavesNone why probe.old probe.new) }
    {
        let Some(place) = self.places.get_mut(self.next_got) else {
            return Ok(None);
        };
        let got = place.get(probe)?;
        if got.is_some() {
            self.next_got = self.place_after(self.next_got);
        }
        Ok(got)
    }

    /// The place that is used after this one.
    fn place_after(&self, place: usize) -> usize {
        let next = place.wrapping_add(1);
        if next < self.places.len() { next } else { 0 }
    }
}
