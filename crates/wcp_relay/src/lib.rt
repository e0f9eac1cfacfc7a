//! Live probes and relays: what runs between the processes of a watch and its checker. `wcp_tree` wires them.
//!
//! What is proved. Live probes and relays over rings and lanes. `LiveProbe`, per call: it stands for a log where its
//! core does and what its end of the ring has put, followed by what is pending, is the emissions of the log; an
//! accepted call leaves one that stands for the log with that call at its end; `flush` is true exactly where nothing is
//! pending afterwards, and puts wherever a slot is known to be free; `close` puts the mark, or gives the probe back
//! open; a probe always stands for some log, so the clocks of the snapshots that a closed one has put never fall in a
//! component and rise in its own; `flush_in_watch` and `close_in_watch` wait until the ring has room, and
//! `flush_waiting` and `close_waiting` do so or answer that its relay is gone, by a value that only a look at the ring
//! makes, with the probe as it was or with its pending note put. `Relay::run`: for each process what it put is a prefix
//! of what it took, and of a leaf of that or of that and the one mark that the process was lost, which the leaf made,
//! since no such mark comes out of a ring; where it met no fault the two are the same list, which ends with a last
//! note. When a leaf makes such a mark no clause says, but that it does so before any last note. The end of one that
//! met a fault is of the same rings or lane, and holds none of them; its fault is the first that came: a cut as it put,
//! a note that isn't the next one of its process, behind which it isn't cut any more, or a cut as it took; where
//! nothing ended its taking early, a last note of each process below it was taken, also behind a cut. `Bundle` is a
//! list of 1 to 8 items of one process: `add` is refused exactly where there are 8, the process is another, the place
//! isn't the next, or the last item is a last note; a relay that passes on what it holds puts it as bundles, each the
//! longest run at the front of what is left; when it does so no clause says. A probe that is made stands for the empty
//! log, and `Relay::new` and `CheckerInbox::new` keep all that they are handed.
#![tactic(auto)]

mod bundle;
mod checker_inbox;
mod feed;
mod inner;
mod leaf;
mod live_probe;
mod open_messages;
mod outlet;
mod parts;
mod patience;
mod relay;
mod relay_end;
mod relay_part;
mod source;
mod take_fault;

pub use bundle::{Bundle, MAX_BUNDLE};
pub use checker_inbox::CheckerInbox;
pub use feed::Feed;
pub use live_probe::{LiveProbe, ProbeEnd};
pub use parts::Watch;
pub use relay::Relay;
pub use relay_end::{Receipts, RelayEnd, RelayFault};
pub use source::Source;
