ghost use Rattle.std.specs.Prelude.{◌≡◌, ℕ, ◌∷◌, [], ◌++◌, OnOk, IfOk};
ghost use Rattle.wcp_probe.specs.Seal.{seal_of};

use crate::message::Message;
use crate::worker_end::WorkerFault;
use std::sync::Wait;
use wcp_lane::{Putter, Taker};
use wcp_probe::Stamped;
use wcp_ring::{Bell, Sleeper};

/// The end of a lane by which a worker sends to another.
#[derive(Drop)]
pub struct Outbox {
    pub(crate) putter: Putter<Message>,
    pub(crate) sent: u32,
    /// How many messages the lane has room for.
    pub(crate) room: u32,
    // Declared last, so that it rings after the putter is gone.
    pub(crate) bell: Bell,
}

/// The end of a lane by which a worker gets what another sends to it.
#[derive(Drop)]
pub struct Inbox {
    pub(crate) taker: Taker<Message>,
    /// How many messages are still to come.
    pub(crate) due: u32,
    pub(crate) sleeper: Sleeper,
}

impl Outbox {
    ghost use Rattle.wcp_worker.specs.Lanes.{IsOutboxOf, IsSameOutbox, clocks_from};

    /// Sends a message, which never waits for room.
    pub(crate) fn send<R: Wait>(&mut self, rt: &R, stamped: Stamped<()>) -> Result<(), WorkerFault>
        requires { IsOutboxOf (seal_of stamped).from self.old }
        ensures same { IsSameOutbox self.old self.new }
        ensures own { OnOk result (IsOutboxOf (seal_of stamped).from self.new) }
        ensures sent { OnOk result (clocks_from (seal_of stamped).from self.new.putter.put
            ≡ clocks_from (seal_of stamped).from self.old.putter.put ++ (seal_of stamped).clock ∷ []) }
    {
        if self.sent >= self.room {
            return Err(WorkerFault::Unpaired);
        }
        let message = Message {
            stamped,
            place: u64::from(self.sent),
        };
        match self.putter.put(rt, message) {
            Ok(()) => {
                self.bell.ring();
                self.sent += 1;
                Ok(())
            }
            Err((cut, _)) => Err(WorkerFault::Cut(cut)),
        }
    }
}

impl Inbox {
    ghost use Rattle.wcp_worker.specs.Lanes.{IsInboxOf, IsSameInbox, HasTakenMore, clocks_from};

    /// Waits for the next message. It doesn't wait for more than will come. A worker waits by its sleeper: the lane's
    /// own wait would spin each time, which takes a processor from the workers that have something to do.
    pub(crate) fn take<R: Wait>(&mut self, rt: &R) -> Result<Stamped<()>, WorkerFault>
        ensures same { IsSameInbox self.old self.new }
        ensures taken { IfOk result (λ stamped. (q : ℕ) → IsInboxOf q self.old → clocks_from q self.new.taker.taken
            ≡ clocks_from q self.old.taker.taken ++ (seal_of stamped).clock ∷ []) }
    {
        if self.due == 0 {
            return Err(WorkerFault::Unpaired);
        }
        for _ in rt.forever() {
            let found = match self.taker.try_take(rt) {
                Ok(found) => found,
                Err(cut) => return Err(WorkerFault::Cut(cut)),
            };
            if let Some(message) = found {
                self.sleeper.stir();
                self.due -= 1;
                return Ok(message.stamped);
            }
            self.sleeper.rest(rt);
        }
        unreachable!()
    }

    /// Takes all that is still to come.
    pub(crate) fn take_rest<R: Wait>(&mut self, rt: &R) -> Result<(), WorkerFault>
        ensures { OnOk result ((q : ℕ) → HasTakenMore q self.old self.new) }
    {
        for _ in 0..self.due {
            self.take(rt)?;
        }
        Ok(())
    }
}
