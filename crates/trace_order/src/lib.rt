//! The events of a log without clocks, in an order in which each message is sent before it is received, with their
//! vector clocks.
//!
//! What is proved. An event happened before another one of the log where it stands before it at its host, or sends an
//! id that the other receives, or by way of others (`HappensBefore` in `specs/Messages.antt`; Lamport 1978).
//! `MessageOrder::read` reads an event: `Twice` exactly where it sends an id that was sent, or one twice, with the first
//! of these and the line that sends it first (`second_in` in `specs/Ids.antt`).
//! `MessageOrder::next` gives an event on: of each host the events come in their order, each once, and all that an
//! event receives was sent by ones before it (`IsOrder` in `specs/Orders.antt`). None is given on only where each host's
//! first event that waits receives what no event sent that was given on. The clock of an event is the greatest of that
//! of its host's event before and of the senders', and its own number one more (`specs/Clocks.antt`; Fidge 1988;
//! Mattern 1989). The clocks of those that were given on are happened-before: the clock of one counts another exactly
//! where that one is it, or happened before it in the whole log that was read (`SaysBefore` in `specs/Orders.antt`).
//!
//! Which event is given on, with what clock, and what is kept then, is exact (`next_in` in `specs/Giving.antt`): of the
//! hosts whose first event waits for none, the one that came first gives it on. After an error the order is as before.
//!
//! `MessageOrder::first_waiting`: of the events that wait, which one is named (`first_to_wait` in `specs/Waiting.antt`).
//! `MessageOrder::waited_for`: for which id (`waited_for`).
//!
//! `MessageOrder::assume_sent`: a copy of the order in which no event that waits receives what no event sends (`assumed`
//! in `specs/Assumed.antt`).
//!
//! Kept are the last clock of each host, the clock of each id that was sent, and the events that wait.
#![tactic(auto)]

mod announce;
mod assuming;
mod event;
mod first_waiting;
mod host;
mod message_words;
mod next_clock;
mod order;
mod order_fault;
mod second_send;
mod sent;

pub use event::MessageEvent;
pub use message_words::MessageWords;
pub use order::{MessageOrder, OrderedEvent};
pub use order_fault::{GiveFault, PutFault};
pub use second_send::SecondSend;
