//! What the calls answer, each answer a number.
ghost use Rattle.std.specs.Prelude.{◌≡◌};
ghost use Rattle.wcp_c.specs.Answers.{refusal_number};

use wcp_probe::Refusal;

/// The call is done.
pub const DONE: u32 = 0;

/// The call is done, and a note is to be sent to the checker.
pub const DONE_WITH_NOTE: u32 = 1;

/// The memory holds no probe.
pub const NO_PROBE: u32 = 16;

/// The memory holds no stamp.
pub const NO_STAMP: u32 = 17;

/// The memory holds no note.
pub const NO_NOTE: u32 = 18;

/// The memory holds no checker.
pub const NO_CHECKER: u32 = 19;

/// A number names no process, no flag, or a number of processes that no watch has.
pub const OUT_OF_RANGE: u32 = 20;

/// The handle holds a checker already.
pub const IN_USE: u32 = 21;

/// There is no memory.
pub const NO_MEMORY: u32 = 22;

/// The process is in no cut that was found.
pub const NOT_IN_CUT: u32 = 23;

/// There is no room for the text.
pub const NO_ROOM: u32 = 24;

/// The bytes are those of no checker.
pub const NO_SAVED: u32 = 25;

/// A cut was found.
pub const FOUND: u32 = 2;

/// There is no such cut.
pub const NOTHING: u32 = 3;

/// Neither is known yet.
pub const UNDECIDED: u32 = 4;

/// The note is of a watch of another number of processes.
pub const OTHER_WATCH: u32 = 48;

/// The process has ended.
pub const ENDED: u32 = 49;

/// A note of the same process that comes before this one is missing.
pub const OUT_OF_TURN: u32 = 50;

/// The note says that its process has no condition, and the checker watches the process.
pub const NOT_AGREED: u32 = 51;

/// The note was taken before.
pub const TAKEN_ALREADY: u32 = 52;

/// The stamp or the note is of another watch.
pub const STRANGER: u32 = 35;

/// The number of a probe's refusal.
pub fn refusal_number(why: Refusal) -> u32
    ensures { result ≡ refusal_number why }
{
    match why {
        Refusal::NoSuch => 32,
        Refusal::Closed => 33,
        Refusal::Backlog => 34,
        Refusal::Stranger => STRANGER,
        Refusal::NotMine => 36,
        Refusal::Ahead => 37,
        Refusal::ClockEnd => 38,
    }
}
