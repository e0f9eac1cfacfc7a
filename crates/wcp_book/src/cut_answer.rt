ghost use Rattle.std.specs.Prelude.{◌≡◌, true};
ghost use Rattle.wcp_book.specs.Allowed.{may_tell};
ghost use Rattle.wcp_book.specs.State.{answer_of_report};

use crate::answers::{Answers, AnyAnswer};
use std::marker::{Model, PhantomData};
use wcp_model::{GlobalCut, Report};

/// What a watch tells whoever waits for its cut.
#[derive(Clone, Copy, Debug, PartialEq, Eq)]
pub enum CutAnswer {
    /// The cut was found.
    Found(GlobalCut),
    /// The watch has run to its end, and there is no cut.
    Nothing,
    /// The watch has run to its end, and what the checker took has no cut, but it hasn't taken all: a process was lost,
    /// or memory ran out.
    Undecided,
    /// The watch has ended without having run.
    NotRun,
}

impl CutAnswer {
    /// What a watch tells that has run to its end with this report.
    pub fn of_report(report: Report) -> CutAnswer
        ensures { result ≡ answer_of_report report }
    {
        match report {
            Report::Found(cut) => CutAnswer::Found(cut),
            Report::Nothing => CutAnswer::Nothing,
            Report::Undecided => CutAnswer::Undecided,
        }
    }
}

/// An answer that a book has told, of those that it may tell. Only a book makes one.
///
/// A contract sees it as that answer.
#[derive_where(Clone, Copy, Debug, PartialEq, Eq)]
pub struct ToldAnswer<A: Answers = AnyAnswer> {
    told: CutAnswer,
    of: PhantomData<A>,
}

impl<A: Answers> Model for ToldAnswer<A> {
    ghost use Rattle.std.specs.Prelude.{◌≡◌, true};
    ghost use Rattle.wcp_book.specs.declared.cut_answer.CutAnswer.{CutAnswer};
    ghost use Rattle.wcp_book.specs.contracts.cut_answer.CutAnswer as of_cut_answer;
    ghost use Rattle.wcp_book.specs.Allowed.{may_tell};

    ghost Value = { CutAnswer };

    ghost coded = { of_cut_answer.the_row.coded };

    ghost view = { λ a. a.told };

    ghost invariant = { λ a. may_tell A.allows a.told ≡ true };

    ghost inverse = { λ told. record { told = told; of = record {} } };
}

impl<A: Answers> ToldAnswer<A> {
    /// That a book tells this.
    pub(crate) fn of(told: CutAnswer) -> ToldAnswer<A>
        requires { may_tell A.allows told ≡ true }
        ensures { result ≡ told }
    {
        ToldAnswer {
            told,
            of: PhantomData,
        }
    }

    /// What was told.
    pub fn answer(&self) -> CutAnswer
        ensures told { result ≡ self.now }
        ensures allowed { may_tell A.allows result ≡ true }
    {
        self.told
    }
}
