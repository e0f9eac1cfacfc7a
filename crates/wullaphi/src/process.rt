ghost use Rattle.wcp_relay.specs.LiveProbe.{LiveFor};

use crate::lent_probe::{LentProbe, Loan};
use std::sync::Wait;

/// What a process does, in a thread of its own.
pub trait Process {
    ghost use Rattle.std.specs.Prelude.{⊤, []};
    ghost use Rattle.wcp_relay.specs.LiveProbe.{LiveSide};

    /// What all processes of the watch share.
    type Shared;

    /// What is left of the process once it has run.
    type Answer;

    /// How its probe stands, and what it answers, once it has run. A process that says nothing here proves nothing.
    ghost leaves: { Self → LiveSide → Self.Answer → Type 0 } = { λ process probe answer. ⊤ };

    /// Runs the process. Its probe has made no call yet; it is closed once this returns, also where the process gave
    /// up.
    fn run<L: Loan, R: Wait>(
        self,
        rt: &R,
        probe: &mut LentProbe<L>,
        shared: &Self::Shared,
    ) -> Self::Answer
        requires { LiveFor probe.old [] }
        ensures { leaves self probe.new result };
}

/// What a process does that may be lost: it says by its answer whether it has done its part.
///
/// Each `Process` is one whose part is done whatever it answers.
pub trait LosableProcess {
    ghost use Rattle.std.specs.Prelude.{◌≡◌, Bool, ⊤, []};
    ghost use Rattle.wcp_relay.specs.LiveProbe.{LiveSide};

    /// What all processes of the watch share.
    type Shared;

    /// What is left of the process once it has run.
    type Answer;

    /// How its probe stands, and what it answers, once it has run. A process that says nothing here proves nothing.
    ghost leaves: { Self → LiveSide → Self.Answer → Type 0 } = { λ process probe answer. ⊤ };

    /// Whether its part is done where it answers this.
    ghost done: { Self.Answer → Bool };

    /// Runs the process. Its probe has made no call yet; it is closed once this returns, if the part of the process is
    /// done.
    fn run<L: Loan, R: Wait>(
        self,
        rt: &R,
        probe: &mut LentProbe<L>,
        shared: &Self::Shared,
    ) -> Self::Answer
        requires { LiveFor probe.old [] }
        ensures { leaves self probe.new result };

    /// Whether a process that answered this has done its part. One that hasn't is lost: its probe is dropped, and what
    /// it had put still counts.
    fn is_done(answer: &Self::Answer) -> bool
        ensures { result ≡ done answer.now };
}

impl<P: Process> LosableProcess for P {
    ghost use Rattle.std.specs.Prelude.{true};

    type Shared = P::Shared;

    type Answer = P::Answer;

    ghost leaves = { λ process probe answer. P.Process.leaves process probe answer };

    ghost done = { λ answer. true };

    fn run<L: Loan, R: Wait>(
        self,
        rt: &R,
        probe: &mut LentProbe<L>,
        shared: &P::Shared,
    ) -> P::Answer {
        <P as Process>::run(self, rt, probe, shared)
    }

    fn is_done(_answer: &P::Answer) -> bool {
        true
    }
}
