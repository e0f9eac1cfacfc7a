ghost use Rattle.std.specs.Prelude.{◌≡◌, [], IfOk, OnErr, Some, None};
ghost use Rattle.wcp_model.specs.declared.step.Reply.TheVariants.{Done};
ghost use Rattle.wcp_probe.specs.declared.probe.Refusal.{Refusal};
ghost use Rattle.wcp_probe.specs.Refusals.{stamp_refusal};
ghost use Rattle.wcp_world.specs.Answer.{IsAnswer, KeepsIfRefused};
ghost use Rattle.wcp_world.specs.Messages.{IsPosted, IsDelivered, delivery_reasons};

use std::alloc::{AllocError, Global};
use std::marker::Model;
use wcp_model::{Reply, Why};
use wcp_probe::{ProbeCore, Refusal, Stamped};

/// A message that was sent, until its receiver has taken it.
#[derive(Drop)]
pub struct Letter {
    pub to: u32,
    pub message: Option<Stamped<()>>,
}

/// All messages that were sent, by number. A contract sees the list of them.
#[derive(Drop)]
pub struct Letters {
    letters: Vec<Letter>,
}

impl Model for Letters {
    ghost use Rattle.std.specs.Prelude.{List};
    ghost use Rattle.wcp_world.specs.declared.messages.Letter.{Letter};

    ghost Value = { List Letter };

    ghost view = { λ l. l.letters.items };
}

impl Letters {
    /// No message was sent yet.
    pub fn new(alloc: Global) -> Letters
        ensures { result ≡ [] }
    {
        Letters {
            letters: Vec::new(alloc),
        }
    }

    /// The probe sends a message to this process: `Ok(None)`. `Ok(Some(why))` where it refuses to, and
    /// `Err` where memory runs out: nothing has changed then.
    pub fn post(&mut self, probe: &mut ProbeCore, to: u32) -> Result<Option<Refusal>, AllocError>
        ensures first { IfOk result (λ refusal. refusal ≡ stamp_refusal probe.old to) }
        ensures posted { IfOk result (λ refusal. refusal ≡ None →
            IsPosted probe.old probe.new to self.old self.new) }
        ensures refused { IfOk result (λ refusal. (why : Refusal) → refusal ≡ Some why →
            (probe.new ≡ probe.old) × (self.new ≡ self.old)) }
        ensures unchanged { OnErr result ((probe.new ≡ probe.old) × (self.new ≡ self.old)) }
    {
        self.letters.reserve(1)?;
        match probe.stamp(to, ()) {
            Ok(message) => {
                let letter = Letter {
                    to,
                    message: Some(message),
                };
                self.letters.push(letter)?;
                Ok(None)
            }
            Err((why, ())) => Ok(Some(why)),
        }
    }

    /// The probe, which is that of process `p`, receives message `number`.
    pub fn deliver(&mut self, probe: &mut ProbeCore, p: u32, number: u64) -> Reply
        ensures answered { IsAnswer (delivery_reasons probe.old self.old p number) result }
        ensures delivered { result ≡ Done → IsDelivered probe.old probe.new self.old self.new number }
        ensures kept { KeepsIfRefused probe.old result probe.new }
        ensures refused { KeepsIfRefused self.old result self.new }
    {
        let Some(letter) = self.letters.get_mut(number as usize) else {
            return Reply::Refused(Why::NoSuch);
        };
        if letter.to != p {
            return Reply::Refused(Why::NoSuch);
        }
        if probe.closed() {
            return Reply::Refused(Why::Closed);
        }
        if probe.pending().is_some() {
            return Reply::Refused(Why::Backlog);
        }
        let Some(message) = letter.message.take() else {
            return Reply::Refused(Why::Gone);
        };
        match probe.receive(message) {
            Ok(()) => Reply::Done,
            Err((_, message)) => {
                letter.message = Some(message);
                Reply::Refused(Why::ClockEnd)
            }
        }
    }
}
