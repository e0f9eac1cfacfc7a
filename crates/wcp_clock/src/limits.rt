//! The limits of the product, each as one constant; `specs/Limits` has them as the numbers that
//! contracts speak of.

/// The most processes of a computation.
pub const MAX_PROCS: usize = 16;

/// The most communication events of one process: one fewer than its number of intervals, which a
/// component of a clock counts.
pub const CLOCK_LIMIT: u32 = 4_294_967_294;

/// The most items that a link or an inbox has room for.
pub const MAX_CAP: u32 = 1024;

/// The most items that a relay's hold has room for.
pub const MAX_HOLD: u32 = 64;

/// The most relays of a tree.
pub const MAX_RELAYS: usize = 15;

/// The most relays on a path to the root.
pub const MAX_PATH: usize = 8;

/// The most steps of a text.
pub const MAX_STEPS: usize = 65_536;

/// The most messages that a lane has room for.
pub const MAX_LANE: u32 = 65_536;

/// How many times in a row a gate may hold a worker back before it gives up.
pub const GATE_TURNS: u32 = 50_000_000;
