ghost use Rattle.std.specs.Prelude.{◌≡◌, ℕ, List, OnOk, OnErr};
ghost use Rattle.trace_rewrite.specs.Saying.{SaysAgain, SaysEnd, SaysLine, SaysSame};

use std::alloc::AllocError;

/// Says a log anew, line by line, in whole numbered lines (`trace_log`'s `LogLayout::Numbered`), each with its LF.
///
/// The lines come in order, and no line follows one that has more than 65,536 bytes. Where memory runs out, the same is
/// left to be said of the line and of those behind it, so that the call can be repeated for this line; what was added
/// to `out` is dropped.
pub trait Rewrite: Drop {
    // What is said of lines, the first of which has this number, and of the log's end behind them.
    ghost said: { Self → ℕ → List (List ℕ) → List ℕ };

    /// Adds what the line of this number makes known: no line, or one, or several.
    fn line(&mut self, number: u64, line: &[u8], out: &mut Vec<u8>) -> Result<(), AllocError>
        ensures ok { OnOk result
            (SaysLine (said self.old) (said self.new) number line.now out.old.items out.new.items) }
        ensures err { OnErr result (SaysAgain (said self.old) (said self.new) number line.now) };

    /// Adds what the end of the log makes known.
    fn end(&mut self, out: &mut Vec<u8>) -> Result<(), AllocError>
        ensures ok { OnOk result (SaysEnd (said self.old) out.old.items out.new.items) }
        ensures err { OnErr result (SaysSame (said self.old) (said self.new)) };
}
