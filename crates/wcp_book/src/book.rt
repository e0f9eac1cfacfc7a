ghost use Rattle.std.specs.Prelude.{◌≡◌, ◌≢◌, ◌+◌, ◌<◌, ◌≤◌, ◌↔◌, length, replicate, is_some, slice_get, slice_set};
ghost use Rattle.std.specs.Prelude.{Some, None};
ghost use Rattle.std.specs.Prelude.{true, false, not, Ok, IsOk, IfOk, IfSome, OnOk, OnErr, IsErrOf};
ghost use Rattle.std.specs.Option.{option_flatten};
ghost use Rattle.wcp_clock.specs.Limits.{most_processes, most_snapshots};
ghost use Rattle.wcp_book.specs.declared.book.BookFault.TheVariants.{NoSuch, Twice};
ghost use Rattle.wcp_book.specs.declared.cut_answer.CutAnswer.{CutAnswer};
ghost use Rattle.wcp_book.specs.declared.cut_answer.CutAnswer.TheVariants.{Found, NotRun};
ghost use Rattle.wcp_book.specs.declared.news.News.TheVariants.{Told};
ghost use Rattle.wcp_book.specs.Allowed.{may_tell};
ghost use Rattle.wcp_book.specs.State.{answer_of, answer_of_report, IsAwaited};
ghost use Rattle.wcp_book.specs.Totals.{AreTotals};

use crate::answers::{Answers, AnyAnswer};
use crate::cut_answer::{CutAnswer, ToldAnswer};
use crate::news::{News, Teller};
use std::alloc::{AllocError, Global};
use std::marker::Model;
use thiserror::Error;
use wcp_clock::MAX_PROCS;
use wcp_model::{GlobalCut, Report, Tally};

/// The shares that were posted so far, each process at most once, their totals, the cut that was found, as soon as it
/// was told, what the watch came to, once the book has ended, and whether a watch has the book that runs.
///
/// A contract sees it as the list of the shares, one place for each process, that cut, that end, and that use. It is
/// kept under a lock while a watch runs: whenever the lock is free, the totals are the sums of the shares, and no one
/// waits for news that is there. It tells what `A` allows, and `NotRun`.
#[derive(Drop)]
pub struct Book<A: Answers = AnyAnswer> {
    processes: u32,
    shares: [Option<Tally>; MAX_PROCS],
    totals: Tally,
    found: Option<GlobalCut>,
    ended: Option<CutAnswer>,
    in_use: bool,
    waited_for: Option<Teller<A>>,
}

impl<A: Answers> Model for Book<A> {
    ghost use Rattle.std.specs.Prelude.{◌≡◌, ◌≢◌, ◌<◌, ◌≤◌, None, IfSome, true, length, take, All};
    ghost use Rattle.wcp_book.specs.declared.cut_answer.CutAnswer.TheVariants.{Found};
    ghost use Rattle.wcp_book.specs.Allowed.{may_tell};
    ghost use Rattle.wcp_clock.specs.Limits.{most_processes};
    ghost use Rattle.wcp_book.specs.State.{BookState};
    ghost use Rattle.wcp_book.specs.Totals.{AreTotals, HasFewSnapshots};

    ghost Value = { BookState };

    ghost view = { λ b. record {
      shares = take b.processes b.shares;
      found = b.found;
      ended = b.ended;
      in_use = b.in_use;
    } };

    ghost invariant = { λ b.
        (0 < b.processes) × (b.processes ≤ most_processes) × (length b.shares ≡ most_processes)
        × All HasFewSnapshots (take b.processes b.shares)
        × AreTotals (take b.processes b.shares) b.totals
        × (b.found ≢ None → b.waited_for ≡ None) × (b.ended ≢ None → b.waited_for ≡ None)
        × IfSome b.found (λ cut. A.allows (Found cut) ≡ true)
        × IfSome b.ended (λ answer. may_tell A.allows answer ≡ true) };
}

/// Why a share isn't posted. Where both apply, the first is given.
#[derive(Clone, Copy, Debug, PartialEq, Eq, Error)]
pub enum BookFault {
    /// There is no such process.
    #[error("no such process")]
    NoSuch,
    /// A share of this process was posted before.
    #[error("posted twice")]
    Twice,
}

impl Book {
    /// The book of a watch of `n` processes, in which nothing is posted or told. No watch has it yet, and it may tell
    /// each answer.
    pub fn new(n: u32) -> Book
        requires some { 0 < n }
        requires within { n ≤ most_processes }
        ensures { result ≡ record { shares = replicate n None; found = None; ended = None; in_use = false } }
    {
        Book::empty(n)
    }
}

impl<A: Answers> Book<A> {
    /// The book of a watch of `n` processes, in which nothing is posted or told. No watch has it yet, and it may tell
    /// the answers that `A` allows.
    pub fn empty(n: u32) -> Book<A>
        requires some { 0 < n }
        requires within { n ≤ most_processes }
        ensures { result ≡ record { shares = replicate n None; found = None; ended = None; in_use = false } }
    {
        Book {
            processes: n,
            shares: [None; MAX_PROCS],
            totals: Tally {
                emitted: 0,
                taken: 0,
            },
            found: None,
            ended: None,
            in_use: false,
            waited_for: None,
        }
    }

    /// Begins the book anew, for a watch of `n` processes. Those who wait for its news go on waiting. Where a watch
    /// that runs has the book nothing changes. Whether it was begun.
    pub fn begin(&mut self, n: u32) -> bool
        requires some { 0 < n }
        requires within { n ≤ most_processes }
        ensures free { result ≡ not self.old.in_use }
        ensures begun { self.old.in_use ≡ false
            → self.new ≡ record { shares = replicate n None; found = None; ended = None; in_use = false } }
        ensures unchanged { self.old.in_use ≡ true → self.new ≡ self.old }
    {
        if self.in_use {
            return false;
        }
        let waited_for = self.waited_for.take();
        *self = Book::empty(n);
        self.waited_for = waited_for;
        true
    }

    /// Takes the book for a watch of `n` processes that is about to run, and begins it anew. Where another that runs
    /// has it nothing changes. Whether it was free.
    pub fn claim(&mut self, n: u32) -> bool
        requires some { 0 < n }
        requires within { n ≤ most_processes }
        ensures free { result ≡ not self.old.in_use }
        ensures claimed { self.old.in_use ≡ false
            → self.new ≡ record { shares = replicate n None; found = None; ended = None; in_use = true } }
        ensures unchanged { self.old.in_use ≡ true → self.new ≡ self.old }
    {
        let free = self.begin(n);
        self.in_use = true;
        free
    }

    /// Gives the book back once the watch that has it is over. Where nothing has ended it, that watch hasn't run, and
    /// all who wait are told so.
    pub fn release(&mut self)
        ensures ended { self.old.ended ≢ None → self.new ≡ record self.old { in_use = false } }
        ensures not_run { self.old.ended ≡ None → self.new ≡ record self.old { ended = Some NotRun; in_use = false } }
    {
        self.in_use = false;
        if self.ended.is_none() {
            self.end_unrun();
        }
    }

    /// Says that a watch which was given this book doesn't run: the book is begun anew and ends with that, which all
    /// who wait are told. Where a watch that runs has the book nothing changes.
    pub fn refuse(&mut self)
        ensures refused { self.old.in_use ≡ false → self.new ≡ record {
          shares = replicate (length self.old.shares) None;
          found = None;
          ended = Some NotRun;
          in_use = false;
        } }
        ensures unchanged { self.old.in_use ≡ true → self.new ≡ self.old }
    {
        if self.begin(self.processes) {
            self.end_unrun();
        }
    }

    /// Posts the share of process `p`: how many snapshots it emitted, and how many of them the checker took.
    pub fn post(&mut self, p: u32, emitted: u64, taken: u64) -> Result<(), BookFault>
        requires few_emitted { emitted ≤ most_snapshots }
        requires few_taken { taken ≤ most_snapshots }
        ensures ok { IsOk result ↔ (slice_get self.old.shares p ≡ Some None) }
        ensures no_such { IsErrOf result NoSuch ↔ (length self.old.shares ≤ p) }
        ensures posted { OnOk result (self.new ≡ record self.old {
          shares = slice_set self.old.shares p (Some (record { emitted = emitted; taken = taken }));
        }) }
        ensures unchanged { OnErr result (self.new ≡ self.old) }
    {
        if p >= self.processes {
            return Err(BookFault::NoSuch);
        }
        if self.shares[p as usize].is_some() {
            return Err(BookFault::Twice);
        }
        self.shares[p as usize] = Some(Tally { emitted, taken });
        self.totals.emitted += emitted;
        self.totals.taken += taken;
        Ok(())
    }

    /// The share of process `p`, if one was posted.
    pub fn share(&self, p: u32) -> Option<Tally>
        ensures value { result ≡ option_flatten (slice_get self.now.shares p) }
        ensures few { length self.now.shares ≤ most_processes }
    {
        if p < self.processes {
            self.shares[p as usize]
        } else {
            None
        }
    }

    /// Tells the cut that was found, also to all who wait for it. Where one was told before, that one stays.
    pub fn tell(&mut self, cut: GlobalCut)
        requires { A.allows (Found cut) ≡ true }
        ensures told { self.old.found ≡ None → self.new ≡ record self.old { found = Some cut } }
        ensures stays { self.old.found ≢ None → self.new ≡ self.old }
    {
        if self.found.is_some() {
            return;
        }
        self.found = Some(cut);
        if let Some(teller) = self.waited_for.take() {
            teller.tell(&CutAnswer::Found(cut));
        }
    }

    /// Says that the watch has run to its end, with this report of its checker, and that nothing more will be told. All
    /// who wait are told what that is.
    pub fn end(&mut self, report: Report)
        requires { may_tell A.allows (answer_of_report report) ≡ true }
        ensures { self.new ≡ record self.old { ended = Some (answer_of_report report) } }
    {
        self.end_with(&CutAnswer::of_report(report));
    }

    /// Says that no watch has run, and that nothing more will be told.
    fn end_unrun(&mut self)
        ensures { self.new ≡ record self.old { ended = Some NotRun } }
    {
        self.end_with(&CutAnswer::NotRun);
    }

    /// Ends the book with this answer, and lets all go who wait.
    fn end_with(&mut self, answer: &CutAnswer)
        requires { may_tell A.allows answer.now ≡ true }
        ensures { self.new ≡ record self.old { ended = Some answer.now } }
    {
        self.ended = Some(*answer);
        if let Some(teller) = self.waited_for.take() {
            teller.tell(answer);
        }
    }

    /// What one who waits for the cut is told, if anything is told yet: the cut, once it was told, and else what the
    /// watch came to, once the book has ended.
    pub fn answer(&self) -> Option<CutAnswer>
        ensures told { result ≡ answer_of self.now }
        ensures allowed { IfSome result (λ answer. may_tell A.allows answer ≡ true) }
    {
        match self.found {
            Some(cut) => Some(CutAnswer::Found(cut)),
            None => self.ended,
        }
    }

    /// The next news, for one who waits: that a cut is told, or that the book ends. Where either was before, it is told
    /// at once. `Err` where memory runs out.
    pub fn news(&mut self, alloc: Global) -> Result<News<A>, AllocError>
        ensures told { (answer : CutAnswer) → answer_of self.old ≡ Some answer
            → result ≡ Ok (Told answer) }
        ensures awaited { answer_of self.old ≡ None → IfOk result IsAwaited }
        ensures unchanged { self.new ≡ self.old }
    {
        if let Some(answer) = self.answer() {
            return Ok(News::Told(ToldAnswer::of(answer)));
        }
        let teller = match self.waited_for.take() {
            Some(teller) => teller,
            None => Teller::new(alloc)?,
        };
        let awaited = teller.awaited();
        self.waited_for = Some(teller);
        Ok(News::Awaited(awaited?))
    }

    /// The cut that was found, once it was told.
    pub fn found(&self) -> Option<GlobalCut>
        ensures { result ≡ self.now.found }
    {
        self.found
    }

    /// Whether nothing more will be told.
    pub fn has_ended(&self) -> bool
        ensures { result ≡ is_some self.now.ended }
    {
        self.ended.is_some()
    }

    /// Whether a watch has it that runs.
    pub fn is_in_use(&self) -> bool
        ensures { result ≡ self.now.in_use }
    {
        self.in_use
    }

    /// The same shares, cut and end, in a book of their own. No watch has it, and no one waits for its news.
    pub fn copied(&self) -> Book<A>
        ensures { result ≡ record self.now { in_use = false } }
    {
        Book {
            processes: self.processes,
            shares: self.shares,
            totals: self.totals,
            found: self.found,
            ended: self.ended,
            in_use: false,
            waited_for: None,
        }
    }

    /// The sums of all shares that were posted.
    pub fn totals(&self) -> Tally
        ensures { AreTotals self.now.shares result }
    {
        self.totals
    }
}
