//! The events of a log with vector clocks, read as they come from an input that may never end.
//!
//! What is proved. `Log::read`: after the lines so far, it is answered that there is an event exactly where the next
//! line ends one, and `Log::event` lends it as the lines spell it: its host, its clock member by member, its text and
//! the number of the text's line; a fault is answered exactly where the line has it and none before it in their order,
//! with the line's number.
//! A line of a rewritten log (`LogLayout::Numbered`) stands for the line whose number it has: its event or its fault is
//! that line's (`numbered_in` in `specs/Numbered.antt`).
//! Events, faults and their order are said by one definition (`next_turn` in `specs/Log.antt`). A host's clock is
//! judged after that of its event before, and then after the last clock of each other host that it names: an event and
//! such a last event that know each other, so that each happened before the other, are a fault (`may_follow` in
//! `specs/Order.antt`). After a fault, or where memory runs out, the log is as before; each line that
//! was read is one less of those that a log can have. `Log::end`: a fault exactly where the second line of an event is
//! missing. `number_of`: the number of a host in a clock.
//!
//! A clock whose names stand as in the clock of its host's event before is read at one look (`specs/Look.antt`), and is
//! then the one that the definition over JSON gives; any other is read as JSON. So is an event in one JSON object, if
//! its names and texts have no escapes, with its members in any order and others passed over
//! (`specs/PlainEvents.antt`). Of each host the last clock is kept, under the host's number: no two hosts have one
//! number (`specs/Hosts.antt`).
//!
//! `EventReader::next_event`: after the events so far, the next event of the input's lines is read as soon as the
//! line that ends it was read, and no line behind it is taken; none only where the whole input was read and its log may
//! end there; and a fault of the log exactly where the lines of the input end the events so far and then have it first
//! (`whole_log` and `logged_from` in `specs/LoggedEvents.antt`), whatever comes after that line. An event's clock
//! follows that of its host's event before. A read is answered to have failed only where no byte waits that was read,
//! and at most 65,536 bytes wait. The lines of an input are those of `wcp_io`.
//!
//! Said by no clause: what a fault says in words, for which its line is looked at again.
#![tactic(auto)]

mod clock;
mod cycle;
mod detail;
mod event;
mod event_fault;
mod event_reader;
mod explain;
mod explain_clock;
mod fault;
mod forgetting;
mod forgotten;
mod host;
mod hosts;
mod line;
mod log;
mod look;
mod lookups;
mod marks;
mod members;
mod number;
mod numbered;
mod order;
mod parts;
mod plain;
mod plain_event;
mod repeated;
mod shown;
mod spelled;
mod stamp;
mod turn;

pub use detail::FaultDetail;
pub use event::{Event, Logged, Member, number_at, number_of, place_of};
pub use event_fault::EventFault;
pub use event_reader::EventReader;
pub use fault::{LogFault, LogFaultKind, LogReadFault};
pub use forgotten::Forgotten;
pub use line::MAX_LINE;
pub use log::Log;
pub use turn::{Form, LogLayout};
