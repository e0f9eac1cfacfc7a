ghost use Rattle.std.specs.Prelude.{◌≡◌, List, Option, option_map};
ghost use Rattle.trace_log.specs.Log.{Logged as SeenLogged};
ghost use Rattle.trace_log.specs.Turns.{seen_logged};
ghost use Rattle.trace_source.specs.Story.{Advances, Story};

use trace_log::{EventFault, Logged};

/// Gives the events of a log, one after another.
///
/// Of what it reads it takes no more than it needs for the next event: `story` says how much that is.
pub trait Source {
    // What it reads, whole.
    ghost Whole: { Type 0 };
    // What was given of it, and what that tells of the source.
    ghost story: { Self.Whole → Story Self };
    // The event that was given last, if the last call gave one.
    ghost last: { Self → Option SeenLogged };

    /// Goes on to the next event, which `event` gives then; `false` where there is none. After an `Err` there is no
    /// more to be read.
    fn advance(&mut self) -> Result<bool, EventFault>
        ensures { (whole : Self.Whole) (before : List SeenLogged) → (story whole).gave before self.old →
            Advances (story whole) before result (last self.new) self.new };

    /// The event that was given last, if the last call gave one.
    fn event(&self) -> Option<Logged<'_>>
        ensures { option_map seen_logged result ≡ last self.now };
}
