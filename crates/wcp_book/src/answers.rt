//! Which answers a book may tell.

/// Which answers a book may tell, besides `NotRun`, which each may.
///
/// All that is proved of a `Book<A>` is proved for every choice of these. So whoever waits is told nothing that the book
/// wasn't told: its code can't know which other answers are allowed.
pub trait Answers {
    ghost use Rattle.std.specs.Prelude.{Bool};
    ghost use Rattle.wcp_book.specs.declared.cut_answer.CutAnswer.{CutAnswer};

    ghost allows: { CutAnswer → Bool };
}

/// Each answer is allowed.
#[derive(Clone, Copy, Debug, PartialEq, Eq, Drop)]
pub struct AnyAnswer;

impl Answers for AnyAnswer {
    ghost use Rattle.std.specs.Prelude.{true};

    ghost allows = { λ answer. true };
}
