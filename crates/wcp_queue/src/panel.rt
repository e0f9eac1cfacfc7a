ghost use Rattle.std.specs.Prelude.{◌≡◌, ◌≢◌, ℕ, ◌<◌, ◌≤◌, true, false, [], ◌∷◌, ◌++◌, List, length, All, IfOk};
ghost use Rattle.std.specs.Prelude.{◌↔◌, IfSome, IsNone, IsSome};
ghost use Rattle.std.specs.FinSet as set;
ghost use Rattle.std.specs.List.{list_any};
ghost use Rattle.wcp_clock.specs.Limits.{most_processes};
ghost use Rattle.wcp_clock.specs.Notes.{is_close, is_lost};
ghost use Rattle.wcp_clock.specs.declared.note.Item.{Item};
ghost use Rattle.wcp_model.specs.Cut.{Intervals, interval_of};
ghost use Rattle.wcp_model.specs.Watched.{AreSomeWatched};
ghost use Rattle.wcp_model.specs.Report.{IsNamed, clocks_taken, notes_taken};
ghost use Rattle.wcp_model.specs.ReportByClocks.{ClocksRise, IsReportByClocks};
ghost use Rattle.wcp_model.specs.declared.outcome.Report.TheVariants.{Nothing};

use crate::checker::Checker;
use crate::pairs::{number_of_pair, pairs_of};
use crate::question::{are_alike, take_each};
use std::alloc::{AllocError, Global};
use std::marker::Model;
use wcp_clock::{Item, Note};
use wcp_model::{Report, Watched};

/// Asks several questions of the same snapshots: for each of them, the least cut at which the
/// conditions of its own watched processes hold.
///
/// A contract sees it as the list of its questions' checkers.
#[derive(Debug, Drop)]
pub struct Panel {
    questions: Vec<Checker>,
}

impl Model for Panel {
    ghost use Rattle.std.specs.Prelude.{List};
    ghost use Rattle.wcp_queue.specs.Checker.{CheckerState};
    ghost use Rattle.std.specs.Coded.{codes};
    ghost use Rattle.wcp_clock.specs.ProcessNumbers.{numbers_code};

    ghost Value = { List CheckerState };

    ghost coded = { Prim.hlevel (codes, numbers_code) };

    ghost use Rattle.wcp_queue.specs.Panel.{IsSoundPanel};

    ghost view = { λ panel. panel.questions.items };

    ghost invariant = { λ panel. IsSoundPanel panel.questions.items };
}

impl Panel {
    ghost use Rattle.wcp_queue.specs.Checker.{processes, taken_of, closed_of, lost_of, report_of, StandsForItems};
    ghost use Rattle.wcp_queue.specs.Checker.{IsReportOfAnyClocks, IsReportOfStarved};
    ghost use Rattle.wcp_queue.specs.Candidates.{first_candidate, AreAllBelow, IsCutToCome};
    ghost use Rattle.wcp_queue.specs.Pairs.{pair_number, ArePairs};
    ghost use Rattle.wcp_queue.specs.Panel.{question_at, watched_by, StandForItems, MayAllTake, EachTakes};
    ghost use Rattle.wcp_queue.specs.Panel.{HaveTakenAlike, IsSoundPanel};

    /// A panel of `n` processes that has taken nothing, with a question for each of these sets of
    /// watched processes, in their order. `Err` where memory runs out.
    pub fn new(alloc: Global, n: u32, questions: &[Watched]) -> Result<Panel, AllocError>
        requires few { n ≤ most_processes }
        requires some { 0 < length questions.now }
        requires watched { All (AreSomeWatched n) questions.now }
        ensures questions { IfOk result (λ panel. watched_by panel ≡ questions.now) }
        ensures processes { IfOk result (λ panel. All (λ checker. processes checker ≡ n) panel) }
        ensures empty { IfOk result (λ panel. StandForItems panel []) }
        ensures not_starved { IfOk result (λ panel. All (λ checker. checker.starved ≡ false) panel) }
    {
        let mut checkers = Vec::with_capacity(alloc, questions.len())?;
        for watched in questions {
            checkers.push(Checker::new(alloc, n, *watched)?)?;
        }
        Ok(Panel {
            questions: checkers,
        })
    }

    /// A panel of two or more processes that has taken nothing, with a question for each pair of them,
    /// in order: (0, 1), (0, 2), .., (1, 2), .. `Err` where memory runs out.
    pub fn pairs(alloc: Global, n: u32) -> Result<Panel, AllocError>
        requires several { 1 < n }
        requires few { n ≤ most_processes }
        ensures questions { IfOk result (λ panel. ArePairs n (watched_by panel)) }
        ensures processes { IfOk result (λ panel. All (λ checker. processes checker ≡ n) panel) }
        ensures empty { IfOk result (λ panel. StandForItems panel []) }
        ensures not_starved { IfOk result (λ panel. All (λ checker. checker.starved ≡ false) panel) }
    {
        let questions = pairs_of(alloc, n)?;
        Panel::new(alloc, n, &questions)
    }

    /// The number of the question of a pair of processes, `a` less than `b`, in a panel of all pairs of
    /// `n` processes.
    pub fn question_of_pair(n: u32, a: u32, b: u32) -> usize
        requires few { n ≤ most_processes }
        requires order { a < b }
        requires within { b < n }
        ensures { result ≡ pair_number n a b }
    {
        number_of_pair(n, a, b) as usize
    }

    /// The panel of these checkers, one for each question in order. `None` where there is none of them, or
    /// where they are not of as many processes, or haven't counted as many snapshots of each process and
    /// the same marks: then no panel has them. Checkers alike in this that took other notes make a panel
    /// that stands for no list of items.
    pub fn of(checkers: Vec<Checker>) -> Option<Panel>
        ensures value { IfSome result (λ panel. panel ≡ checkers.items) }
        ensures sound { IsSome result ↔ IsSoundPanel checkers.items }
    {
        if !are_alike(&checkers) {
            return None;
        }
        Some(Panel {
            questions: checkers,
        })
    }

    /// The checker of the first question. What it counted of each process, the others did too.
    pub fn first(&self) -> &Checker
        ensures value { result.now ≡ question_at self.now 0 }
        ensures alike { All (HaveTakenAlike result.now) self.now }
    {
        &self.questions[0]
    }

    /// The checker of a question, if there is one of this number.
    pub fn question(&self, question: usize) -> Option<&Checker>
        ensures none { IsNone result ↔ length self.now ≤ question }
        ensures value { IfSome result (λ checker. checker.now ≡ question_at self.now question) }
    {
        self.questions.get(question)
    }

    /// How many questions there are. They are numbered from 0.
    pub fn questions(&self) -> usize
        ensures value { result ≡ length self.now }
        ensures some { 0 < result }
    {
        self.questions.len()
    }

    /// How many processes there are.
    pub fn processes(&self) -> u32
        ensures value { All (λ checker. processes checker ≡ result) self.now }
        ensures some { 0 < result }
        ensures few { result ≤ most_processes }
    {
        self.questions[0].processes()
    }

    /// Which of them a question watches.
    pub fn watched(&self, question: usize) -> Watched
        requires { question < length self.now }
        ensures { result ≡ (question_at self.now question).watched }
    {
        self.questions[question].watched()
    }

    /// Each question takes an item. One that has no memory for it is starved, and takes it then; the
    /// others go on.
    pub fn take(&mut self, item: &Item)
        requires { MayAllTake self.old item.now }
        ensures each { EachTakes self.old self.new item.now }
        ensures stand { (items : List Item) → StandForItems self.old items
            → StandForItems self.new (items ++ item.now ∷ []) }
        ensures watched { watched_by self.new ≡ watched_by self.old }
    {
        take_each(&mut self.questions, item);
    }

    /// Each question takes a note of a process, as `take` takes an item of the two.
    pub fn take_note(&mut self, from: u32, note: &Note)
        requires { MayAllTake self.old (record { from = from; note = note.now }) }
        ensures each { EachTakes self.old self.new (record { from = from; note = note.now }) }
        ensures stand { (items : List Item) → StandForItems self.old items
            → StandForItems self.new (items ++ record { from = from; note = note.now } ∷ []) }
        ensures watched { watched_by self.new ≡ watched_by self.old }
    {
        self.take(&Item { from, note: *note });
    }

    /// What the snapshots taken tell a question, as `Checker::report`.
    pub fn report(&self, question: usize) -> Report
        requires { question < length self.now }
        ensures value { result ≡ report_of (question_at self.now question) }
        ensures any_clocks { let checker = question_at self.now question in
            checker.starved ≡ false → (items : List Item) → StandsForItems checker items
            → IsReportOfAnyClocks (processes checker) checker.watched items result }
        ensures exact { let checker = question_at self.now question in
            checker.starved ≡ false → (items : List Item) → StandsForItems checker items
            → ClocksRise (processes checker) items → IsReportByClocks (processes checker) checker.watched items result }
        ensures starved { let checker = question_at self.now question in
            checker.starved ≡ true → (items : List Item) → StandsForItems checker items
            → IsReportOfStarved (processes checker) checker.watched items result }
        ensures lost { let checker = question_at self.now question in
            (p : ℕ) → p < processes checker → lost_of checker p ≡ true → result ≢ Nothing }
    {
        self.questions[question].report()
    }

    /// The interval of the first candidate that a question has of a process that it watches, as
    /// `Checker::first_candidate`.
    pub fn first_candidate(&self, question: usize, p: u32) -> Option<u32>
        requires within { question < length self.now }
        requires watched { set.contains (question_at self.now question).watched p ≡ true }
        ensures value { result ≡ first_candidate (question_at self.now question) p }
        ensures taken { let checker = question_at self.now question in
            IfSome result (λ first. (items : List Item) → StandsForItems checker items
            → IsNamed items (record { process = p; interval = first })) }
        ensures at_or_above { let checker = question_at self.now question in
            IfSome result (λ first. (items : List Item) (cut : Intervals)
            → StandsForItems checker items → IsCutToCome checker items cut → first ≤ interval_of cut p) }
        ensures none { let checker = question_at self.now question in
            IsNone result → checker.starved ≡ false → (items : List Item) (cut : Intervals)
            → StandsForItems checker items → IsCutToCome checker items cut
            → AreAllBelow p items (interval_of cut p) }
    {
        self.questions[question].first_candidate(p)
    }

    /// Whether a question was starved.
    pub fn is_starved(&self, question: usize) -> bool
        requires { question < length self.now }
        ensures { result ≡ (question_at self.now question).starved }
    {
        self.questions[question].is_starved()
    }

    /// How many snapshots of process `p` were taken.
    pub fn taken(&self, p: u32) -> u64
        requires { All (λ checker. p < processes checker) self.now }
        ensures value { All (λ checker. taken_of checker p ≡ result) self.now }
        ensures snapshots { (items : List Item) → StandForItems self.now items
            → result ≡ length (clocks_taken p items) }
    {
        self.questions[0].taken(p)
    }

    /// Whether the close mark of process `p` was taken.
    pub fn closed(&self, p: u32) -> bool
        requires { All (λ checker. p < processes checker) self.now }
        ensures value { All (λ checker. closed_of checker p ≡ result) self.now }
        ensures mark { (items : List Item) → StandForItems self.now items
            → result ≡ list_any is_close (notes_taken p items) }
    {
        self.questions[0].closed(p)
    }

    /// Whether the mark that process `p` was lost was taken: its probe was dropped before it closed.
    pub fn lost(&self, p: u32) -> bool
        requires { All (λ checker. p < processes checker) self.now }
        ensures value { All (λ checker. lost_of checker p ≡ result) self.now }
        ensures mark { (items : List Item) → StandForItems self.now items
            → result ≡ list_any is_lost (notes_taken p items) }
    {
        self.questions[0].lost(p)
    }
}
