ghost use Rattle.std.specs.Prelude.{◌≡◌, true};
ghost use Rattle.trace_log.specs.Clock.{are_distinct};
ghost use Rattle.trace_log.specs.Names.{names_in};
ghost use Rattle.trace_log.specs.Seen.{seen_clock};

use trace_log::Member;

/// An event of a host, and whether the condition holds at it.
#[derive(Debug, Drop)]
pub(crate) struct KeptTaken {
    pub line: u64,
    pub clock: Vec<Member>,
    pub text: String,
    pub holds: bool,
    ghost distinct: { are_distinct (names_in (seen_clock clock.items)) ≡ true },
}
