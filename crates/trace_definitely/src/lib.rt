//! The laws by which conditions of single hosts could have held at once, or must have, in whichever order events came.
//!
//! What is proved, of definitions alone. Some hosts log events, and each event knows what happened before it. The
//! conditions could have held at once, along some order of the events that fits, exactly if there is a moment
//! (`PossiblyLaw`). They must have, along every such order, exactly if there is a run of each host, a longest row of
//! events from which its condition holds, and each of these runs begins before any other one is over
//! (`DefinitelyLaw`). Then there are runs of which none begins later than in any others that are so (`LeastRunsLaw`):
//! those that are left where the first run of a host is dropped as long as it is over at an event that doesn't know of
//! the beginning of another host's first run. The definitions stand in `specs/Events.antt` and `specs/Definitely.antt`.
//!
//! Of the watched hosts of a log, where an event knows those that its clock counts: the conditions could have held at
//! once exactly if the log has a moment, as `trace_moment` says it (`LogPossiblyLaw` in `specs/Logs.antt`). They must
//! have exactly if there are such runs, told by their first events and those at which they are over
//! (`LogDefinitelyLaw`). The laws want the clocks to be those of a run: an event counts all that the events count which
//! it counts, and no two count each other. What `wcptrace` reads need not be so: some clocks forget.
//!
//! While a log is read, the runs that may be among those that overlap wait (`AreWaiting` in `specs/Waiting.antt`): all
//! but those that are over too early, whatever follows. The four laws say how they begin, what the next event makes of
//! them, which first run waits no more, and what is known at the end, of any clocks.
#![tactic(auto)]

ghost use Rattle.trace_definitely.specs.Definitely.{DefinitelyLaw, LeastRunsLaw, PossiblyLaw};
ghost use Rattle.trace_definitely.specs.Logs.{LogDefinitelyLaw, LogPossiblyLaw};
ghost use Rattle.trace_definitely.specs.Waiting.{WaitingBeginsLaw, WaitingDropsLaw, WaitingEndsLaw, WaitingGrowsLaw};

/// The conditions could have held at once exactly if there is a moment.
pub fn possibly_law()
    ensures { PossiblyLaw }
{}

/// They must have exactly if there is a run of each host, and each begins before any other one is over.
pub fn definitely_law()
    ensures { DefinitelyLaw }
{}

/// Where they must have, there are such runs of which none begins later than in any others.
pub fn least_runs_law()
    ensures { LeastRunsLaw }
{}

/// Those of the watched hosts of a log could have held at once exactly if the log has a moment.
pub fn log_possibly_law()
    ensures { LogPossiblyLaw }
{}

/// They must have exactly if the log has a run of each, of which each begins before any other one is over.
pub fn log_definitely_law()
    ensures { LogDefinitelyLaw }
{}

/// Before the first event of a log no run waits.
pub fn waiting_begins_law()
    ensures { WaitingBeginsLaw }
{}

/// The next event of a host goes on with its last run, ends it, or begins one.
pub fn waiting_grows_law()
    ensures { WaitingGrowsLaw }
{}

/// A first run that is over at an event which doesn't know of the beginning of another first run waits no more.
pub fn waiting_drops_law()
    ensures { WaitingDropsLaw }
{}

/// Where there are no more of these, the first runs that wait overlap; where none waits of a host, no runs do.
pub fn waiting_ends_law()
    ensures { WaitingEndsLaw }
{}
