//! Reading on behind an answer, for those who show what comes next.
ghost use Rattle.std.specs.Prelude.{List};
ghost use Rattle.trace_log.specs.Log.{Logged as LoggedEvent};
ghost use Rattle.trace_asking.specs.ReadingOn.{ReadsOn};

use crate::asked::{Asked, tell};
use trace_detect::{Listener, ReasonedAnswer};
use trace_source::Source;

/// An answer, and what is shown beside it.
#[derive(Debug, Drop)]
pub struct Sighting {
    pub answer: ReasonedAnswer,
    /// How many events were read behind the one at which the moment became known.
    pub more: u32,
    /// What is known of the log behind the last event that was read.
    pub behind: Behind,
}

/// What is known of a log behind the last event that was read.
#[derive(Clone, Copy, Debug, PartialEq, Eq)]
pub enum Behind {
    /// As many events were read as were wanted, and the log may go on.
    GoesOn,
    /// The log has ended.
    Ended,
    /// The log goes on with a fault, or a read failed, or memory ran out.
    Stopped,
}

/// How many events were read on, and what is known of the log behind them.
#[derive(Clone, Copy, Debug, PartialEq, Eq)]
pub struct ReadOn {
    pub more: u32,
    pub behind: Behind,
}

/// Reads on, so many events at most. The listener is told of each, with the hosts of the first question.
pub(crate) fn read_on<S: Source, L: Listener>(
    source: &mut S,
    asked: &[Asked<'_>],
    most: u32,
    listener: &mut L,
) -> ReadOn
    ensures { (whole : S.Whole) (logged : List LoggedEvent) → (S.story whole).gave logged source.old →
        ReadsOn (S.story whole).gave (S.story whole).ended most logged result.more result.behind source.new }
{
    for more in 0..most {
        match source.advance() {
            Ok(true) => tell_last(source, asked, listener),
            Ok(false) => {
                return ReadOn {
                    more,
                    behind: Behind::Ended,
                };
            }
            Err(_) => {
                return ReadOn {
                    more,
                    behind: Behind::Stopped,
                };
            }
        }
    }
    ReadOn {
        more: most,
        behind: Behind::GoesOn,
    }
}

/// Tells the listener of the event that was given last.
fn tell_last<S: Source, L: Listener>(source: &S, asked: &[Asked<'_>], listener: &mut L) {
    if let Some(logged) = source.event() {
        tell(asked, &logged, listener);
    }
}
