ghost use Rattle.std.specs.Prelude.{◌≡◌, ◌≢◌, ◌==◌, ℕ, ◌∷◌, [], ◌++◌, OnOk, IfOk, IfSome, Option, if◌then◌else◌};
ghost use Rattle.wcp_probe.specs.Seal.{seal_of};
ghost use Rattle.wcp_worker.specs.Lanes.{IsOutboxOf, IsInboxOf, IsSameOutbox, IsSameInbox};
ghost use Rattle.wcp_worker.specs.Lanes.{IfBoth, HasTakenMore, messages_put, messages_taken, clocks_from};

use crate::lane_ends::{Inbox, Outbox};
use crate::worker_end::WorkerFault;
use std::sync::Wait;
use wcp_probe::Stamped;

/// The lanes of a worker, by the numbers of its partners.
#[derive(Drop)]
pub struct Mailbox {
    pub(crate) outboxes: Vec<Option<Outbox>>,
    pub(crate) inboxes: Vec<Option<Inbox>>,
}

impl Mailbox {
    ghost use Rattle.wcp_worker.specs.Mailboxes.{IsMailboxOf, HasSameLanes};
    ghost use Rattle.wcp_worker.specs.Mailboxes.{outbox_to, inbox_from, clocks_sent_to, clocks_taken_from};

    /// Takes out the end by which messages go to `q`, if there is one.
    pub fn take_outbox(&mut self, q: u32) -> Option<Outbox>
        ensures outbox { result ≡ outbox_to self.old q }
        ensures others { (other : ℕ) → other ≢ q → outbox_to self.new other ≡ outbox_to self.old other }
        ensures inboxes { self.new.inboxes ≡ self.old.inboxes }
    {
        if q as usize >= self.outboxes.len() {
            return None;
        }
        self.outboxes[q as usize].take()
    }

    /// Takes out the end by which the messages of `q` come, if there is one.
    pub fn take_inbox(&mut self, q: u32) -> Option<Inbox>
        ensures inbox { result ≡ inbox_from self.old q }
        ensures others { (other : ℕ) → other ≢ q → inbox_from self.new other ≡ inbox_from self.old other }
        ensures outboxes { self.new.outboxes ≡ self.old.outboxes }
    {
        if q as usize >= self.inboxes.len() {
            return None;
        }
        self.inboxes[q as usize].take()
    }

    /// Sends a message to a partner.
    pub(crate) fn send<R: Wait>(
        &mut self,
        rt: &R,
        to: u32,
        stamped: Stamped<()>,
    ) -> Result<(), WorkerFault>
        requires { IsMailboxOf (seal_of stamped).from self.old }
        ensures own { OnOk result (IsMailboxOf (seal_of stamped).from self.new) }
        ensures lanes { OnOk result (HasSameLanes self.old self.new) }
        ensures sent { let seal = seal_of stamped in OnOk result ((q : ℕ) → clocks_sent_to seal.from self.new q
            ≡ clocks_sent_to seal.from self.old q ++ (if to == q then seal.clock ∷ [] else [])) }
        ensures inboxes { self.new.inboxes ≡ self.old.inboxes }
    {
        if to as usize >= self.outboxes.len() {
            return Err(WorkerFault::Unpaired);
        }
        send_by(rt, &mut self.outboxes[to as usize], stamped)
    }

    /// Waits for the next message of a partner.
    pub(crate) fn take<R: Wait>(&mut self, rt: &R, from: u32) -> Result<Stamped<()>, WorkerFault>
        ensures own { OnOk result ((p : ℕ) → IsMailboxOf p self.old → IsMailboxOf p self.new) }
        ensures lanes { OnOk result (HasSameLanes self.old self.new) }
        ensures taken { IfOk result (λ stamped. (p q : ℕ) → IsMailboxOf p self.old → clocks_taken_from self.new q
            ≡ clocks_taken_from self.old q ++ (if from == q then (seal_of stamped).clock ∷ [] else [])) }
        ensures outboxes { self.new.outboxes ≡ self.old.outboxes }
    {
        if from as usize >= self.inboxes.len() {
            return Err(WorkerFault::Unpaired);
        }
        take_by(rt, &mut self.inboxes[from as usize])
    }

    /// Takes all that is still to come.
    pub(crate) fn take_rest<R: Wait>(&mut self, rt: &R) -> Result<(), WorkerFault>
        ensures more { OnOk result ((q : ℕ)
            → IfBoth (HasTakenMore q) (inbox_from self.old q) (inbox_from self.new q)) }
        ensures outboxes { self.new.outboxes ≡ self.old.outboxes }
    {
        for from in 0..self.inboxes.len() {
            take_all_by(rt, &mut self.inboxes[from])?;
        }
        Ok(())
    }
}

/// Sends by an end that is there.
fn send_by<R: Wait>(
    rt: &R,
    outbox: &mut Option<Outbox>,
    stamped: Stamped<()>,
) -> Result<(), WorkerFault>
    requires { IfSome outbox.old (IsOutboxOf (seal_of stamped).from) }
    ensures same { OnOk result (IfBoth IsSameOutbox outbox.old outbox.new) }
    ensures own { OnOk result (IfSome outbox.new (IsOutboxOf (seal_of stamped).from)) }
    ensures sent { OnOk result (clocks_from (seal_of stamped).from (messages_put outbox.new)
        ≡ clocks_from (seal_of stamped).from (messages_put outbox.old) ++ (seal_of stamped).clock ∷ []) }
{
    match outbox {
        Some(outbox) => outbox.send(rt, stamped),
        None => Err(WorkerFault::Unpaired),
    }
}

/// Takes by an end that is there.
fn take_by<R: Wait>(rt: &R, inbox: &mut Option<Inbox>) -> Result<Stamped<()>, WorkerFault>
    ensures same { OnOk result (IfBoth IsSameInbox inbox.old inbox.new) }
    ensures taken { IfOk result (λ stamped. (q : ℕ) → IfSome inbox.old (IsInboxOf q)
        → clocks_from q (messages_taken inbox.new)
        ≡ clocks_from q (messages_taken inbox.old) ++ (seal_of stamped).clock ∷ []) }
{
    match inbox {
        Some(inbox) => inbox.take(rt),
        None => Err(WorkerFault::Unpaired),
    }
}

/// Takes all that is still to come by an end, if it is there.
fn take_all_by<R: Wait>(rt: &R, inbox: &mut Option<Inbox>) -> Result<(), WorkerFault>
    ensures { OnOk result ((q : ℕ) → IfBoth (HasTakenMore q) inbox.old inbox.new) }
{
    match inbox {
        Some(inbox) => inbox.take_rest(rt),
        None => Ok(()),
    }
}
