ghost use Rattle.std.specs.Prelude.{◌≡◌, ◌≤◌};
ghost use Rattle.wcp_model.specs.Verdict.{cut_of, status_of};

use wcp_clock::{Padding, PerProcess};

/// A cut: the interval of each watched process, and `None` for another.
pub type GlobalCut = PerProcess<Option<u32>>;

/// How many snapshots of a process were emitted, and how many of them the checker took. Close marks
/// don't count.
#[derive(Clone, Copy, Debug, PartialEq, Eq)]
pub struct Tally {
    pub emitted: u64,
    pub taken: u64,
}

impl Padding for Tally {
    ghost padding = { record { emitted = 0; taken = 0 } };

    fn padding() -> Self {
        Tally {
            emitted: 0,
            taken: 0,
        }
    }
}

/// The tally of each process.
pub type Tallies = PerProcess<Tally>;

/// What is known of the bad moment.
#[derive(Clone, Copy, Debug, PartialEq, Eq)]
pub enum Report {
    /// This is the least cut at which every condition holds.
    Found(GlobalCut),
    /// There is no such cut.
    Nothing,
    /// What was taken has no such cut, and not all has been taken.
    Undecided,
}

impl Report {
    /// The cut, if one was found.
    pub fn cut(&self) -> Option<GlobalCut>
        ensures { result ≡ cut_of self.now }
    {
        match self {
            Report::Found(cut) => Some(*cut),
            Report::Nothing | Report::Undecided => None,
        }
    }

    /// The exit status of a program that tells this: 0 where a cut was found, and else 1.
    pub fn exit_status(&self) -> u8
        ensures value { result ≡ status_of self.now }
        ensures small { result ≤ 1 }
    {
        match self {
            Report::Found(_) => 0,
            Report::Nothing | Report::Undecided => 1,
        }
    }
}

/// What a detection gave.
#[derive(Clone, Copy, Debug, PartialEq, Eq)]
pub struct Outcome {
    pub report: Report,
    pub tallies: Tallies,
}
