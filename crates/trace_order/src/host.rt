//! A host: the clock of its last event that was given on, and its events that wait.
ghost use Rattle.std.specs.Prelude.{◌≡◌, [], ◌∷◌, ◌++◌, IfErr, OnErr, OnOk, option_copied, string_bytes, length, ◌<◌};
ghost use Rattle.trace_order.specs.Orders.{first_sends, first_waiting};
ghost use Rattle.std.specs.Prelude.{map};

use crate::event::MessageEvent;
use std::alloc::Global;
use std::collections::VecDeque;
use std::marker::Model;

/// A host: its name, the clock of its last event that was given on, and its events that wait, the first one first.
#[derive(Drop)]
pub(crate) struct MessageHost {
    pub(crate) name: String,
    pub(crate) clock: Vec<u32>,
    pub(crate) waits: VecDeque<MessageEvent>,
}

impl Model for MessageHost {
    ghost use Rattle.std.specs.Prelude.{string_bytes};
    ghost use Rattle.trace_order.specs.Orders.{HostState as Seen};

    ghost Value = { Seen };

    ghost view = { λ host. record {
      name = string_bytes host.name;
      clock = host.clock.items;
      waits = host.waits.items;
    } };
}

impl MessageHost {
    /// A host of which no event was read.
    pub fn new(alloc: Global, name: String) -> MessageHost
        ensures { result ≡ record { name = string_bytes name; clock = []; waits = [] } }
    {
        MessageHost {
            name,
            clock: Vec::new(alloc),
            waits: VecDeque::new(alloc),
        }
    }

    /// Its name.
    pub fn name(&self) -> &str
        ensures { result.now ≡ self.now.name }
    {
        self.name.as_str()
    }

    /// The clock of its last event that was given on.
    pub fn clock(&self) -> &[u32]
        ensures { result.now ≡ self.now.clock }
    {
        self.clock.as_slice()
    }

    /// How many of its events wait.
    pub fn waiting(&self) -> usize
        ensures { result ≡ length self.now.waits }
    {
        self.waits.len()
    }

    /// The first of its events that wait.
    pub fn first(&self) -> Option<&MessageEvent>
        ensures { option_copied result ≡ first_waiting self.now.waits }
    {
        self.waits.front()
    }

    /// The ids that the first of its events that wait sends.
    pub fn sends(&self) -> &[String]
        ensures { map string_bytes result.now ≡ first_sends self.now.waits }
    {
        match self.waits.front() {
            Some(event) => event.sends(),
            None => &[],
        }
    }

    /// An event of it was read. It comes back where memory runs out.
    pub fn push(&mut self, event: MessageEvent) -> Result<(), MessageEvent>
        ensures waits { OnOk result (self.new ≡ record self.old { waits = self.old.waits ++ event ∷ [] }) }
        ensures same { OnErr result (self.new ≡ self.old) }
        ensures back { IfErr result (λ back. back ≡ event) }
    {
        match self.waits.push_back(event) {
            Ok(()) => Ok(()),
            Err(refused) => Err(refused.value),
        }
    }

    /// The first of its events that wait is given on, with this clock.
    pub fn pop(&mut self, clock: Vec<u32>) -> MessageEvent
        requires { 0 < length self.old.waits }
        ensures event { self.old.waits ≡ result ∷ self.new.waits }
        ensures clock { self.new.clock ≡ clock.items }
        ensures name { self.new.name ≡ self.old.name }
    {
        self.clock = clock;
        self.waits.pop_front().unwrap()
    }
}
