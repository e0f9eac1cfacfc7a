ghost use Rattle.std.specs.Prelude.{◌≡◌, ◌≢◌, ℕ, true, false, ◌+◌, ◌*◌, ◌^◌, ◌<◌, ◌≤◌, [], List, length, count_by};
ghost use Rattle.std.specs.Prelude.{◌↔◌, IfOk, IfErr, IfSome, IsNone, IsOk, IsSome, IsTrue};
ghost use Rattle.std.specs.Prelude.{All, MatchOption, None, OnOk, OnErr};
ghost use Rattle.std.specs.List.{list_all, list_any};
ghost use Rattle.wcp_clock.specs.Limits.{most_processes};
ghost use Rattle.wcp_clock.specs.declared.note.Item.{Item};
ghost use Rattle.wcp_clock.specs.declared.note.Note.TheVariants.{Snap};
ghost use Rattle.wcp_model.specs.declared.outcome.Report.TheVariants.{Found, Nothing};
ghost use Rattle.wcp_clock.specs.Notes.{is_close, is_last, is_lost};
ghost use Rattle.wcp_model.specs.Watched.{AreSomeWatched};
ghost use Rattle.wcp_queue.specs.Rows.{cut_of, known_of, members_of, row_of};
ghost use Rattle.wcp_queue.specs.Elimination.{waiting_in, tests_each, AddsCandidate, AreStable};
ghost use Rattle.wcp_queue.specs.Floor.{HaveHeads, IsCutOfHeads};
ghost use Rattle.wcp_model.specs.ReportByClocks.{ClocksRise, IsReportByClocks};
ghost use Rattle.wcp_model.specs.Report.{clocks_taken, notes_taken};

mod candidates;
mod parts;

use crate::elimination::add_candidate;
use crate::floor::Floor;
use crate::queue::Queues;
pub use parts::CheckerParts;
use std::alloc::{AllocError, Global};
use std::marker::Model;
use wcp_clock::{Clock, Item, MAX_PROCS, Note, PerProcess};
use wcp_model::{GlobalCut, Report, Watched};

/// Takes the snapshots of 1 to 16 processes, in any interleaving, and finds the least cut of those
/// taken at which the condition of every watched process holds.
#[derive(Debug, Drop)]
pub struct Checker {
    processes: u32,
    watched: Watched,
    members: PerProcess<u32>,
    queues: Queues,
    floor: Floor,
    taken: [u64; MAX_PROCS],
    closed: [bool; MAX_PROCS],
    lost: [bool; MAX_PROCS],
    found: Option<PerProcess<u32>>,
    starved: bool,
}

impl Model for Checker {
    ghost use Rattle.wcp_queue.specs.Checker.{CheckerState};
    ghost use Rattle.std.specs.Coded.{codes};
    ghost use Rattle.wcp_clock.specs.ProcessNumbers.{numbers_code};

    ghost Value = { CheckerState };

    ghost coded = { Prim.hlevel (codes, numbers_code) };

    ghost use Rattle.wcp_queue.specs.CheckerView.{checker_state, IsSoundInside};

    ghost view = { checker_state };

    ghost invariant = { IsSoundInside };
}

impl Checker {
    ghost use Rattle.wcp_queue.specs.Checker.{processes, taken_of, closed_of, lost_of, report_of, is_snapshot};
    ghost use Rattle.wcp_queue.specs.Checker.{MayTake, StandsForItems, TakesItem, IsSearching, GrowsNothing};
    ghost use Rattle.wcp_queue.specs.Checker.{KeepsFound, HasFound, IsReportOfAnyClocks, IsReportOfStarved};
    ghost use Rattle.wcp_queue.specs.Checker.{HasCountedNone};
    ghost use Rattle.wcp_queue.specs.Panel.{HaveTakenAlike};

    /// A checker of `n` processes that has taken nothing, for the conditions of those that are watched. `Err` where
    /// memory runs out.
    pub fn new(alloc: Global, n: u32, watched: Watched) -> Result<Checker, AllocError>
        requires few { n ≤ most_processes }
        requires watched { AreSomeWatched n watched }
        ensures processes { IfOk result (λ checker. processes checker ≡ n) }
        ensures watched { IfOk result (λ checker. checker.watched ≡ watched) }
        ensures empty { IfOk result (λ checker. StandsForItems checker []) }
        ensures counted_none { IfOk result HasCountedNone }
        ensures not_starved { IfOk result (λ checker. checker.starved ≡ false) }
    {
        let members = members_of(n, &watched);
        let queues = Queues::new(alloc, members.len())?;
        Ok(Checker {
            processes: n,
            watched,
            members,
            queues,
            floor: Floor::new(),
            taken: [0; MAX_PROCS],
            closed: [false; MAX_PROCS],
            lost: [false; MAX_PROCS],
            found: None,
            starved: false,
        })
    }

    /// How many processes there are.
    pub fn processes(&self) -> u32
        ensures value { result ≡ processes self.now }
        ensures some { 0 < processes self.now }
        ensures few { processes self.now ≤ most_processes }
    {
        self.processes
    }

    /// Which of them are watched.
    pub fn watched(&self) -> Watched
        ensures { result ≡ self.now.watched }
    {
        self.watched
    }

    /// Takes an item. `Err` where memory runs out: it hands the item back, and nothing has changed.
    /// The checker wants memory only while it searches: until a cut is found or it is starved.
    pub fn take(&mut self, item: Item) -> Result<(), (AllocError, Item)>
        requires { MayTake self.old item }
        ensures taken { OnOk result (TakesItem self.old self.new item) }
        ensures found_stays { KeepsFound self.old self.new }
        ensures grows_nothing { ¬ IsSearching self.old → GrowsNothing self.old self.new }
        ensures processes { processes self.new ≡ processes self.old }
        ensures watched { self.new.watched ≡ self.old.watched }

        // Want of memory.
        ensures handed_back { IfErr result (λ refused. refused.1 ≡ item) }
        ensures unchanged { OnErr result (self.new ≡ self.old) }
        ensures last_needs_none { is_last item.note ≡ true → IsOk result }
        ensures found_needs_none { HasFound self.old → IsOk result }
        ensures starved_needs_none { self.old.starved ≡ true → IsOk result }
    {
        match self.take_note(item.from, &item.note) {
            Ok(()) => Ok(()),
            Err(error) => Err((error, item)),
        }
    }

    /// Takes a note of a process, as `take` takes an item of the two. `Err` where memory runs out:
    /// nothing has changed.
    pub fn take_note(&mut self, from: u32, note: &Note) -> Result<(), AllocError>
        requires { MayTake self.old (record { from = from; note = note.now }) }
        ensures taken { OnOk result (TakesItem self.old self.new (record { from = from; note = note.now })) }
        ensures found_stays { KeepsFound self.old self.new }
        ensures grows_nothing { ¬ IsSearching self.old → GrowsNothing self.old self.new }
        ensures processes { processes self.new ≡ processes self.old }
        ensures watched { self.new.watched ≡ self.old.watched }

        // Want of memory.
        ensures unchanged { OnErr result (self.new ≡ self.old) }
        ensures last_needs_none { is_last note.now ≡ true → IsOk result }
        ensures found_needs_none { HasFound self.old → IsOk result }
        ensures starved_needs_none { self.old.starved ≡ true → IsOk result }
    {
        let p = from as usize;
        let clock = match note {
            Note::Snap { number, clock } => {
                let _in_range = *number;
                clock
            }
            Note::Close { .. } => {
                self.closed[p] = true;
                return Ok(());
            }
            Note::Lost { .. } => {
                self.lost[p] = true;
                return Ok(());
            }
        };
        self.take_snapshot(p, clock)
    }

    fn take_snapshot(&mut self, p: usize, clock: &Clock) -> Result<(), AllocError>
        requires within { p < processes self.old }
        requires few { taken_of self.old p < 2 ^ 32 }
        requires still_open { closed_of self.old p ≡ false }
        requires not_lost { lost_of self.old p ≡ false }
        ensures taken { OnOk result
            (TakesItem self.old self.new (record { from = p; note = Snap (taken_of self.old p) clock.now })) }
        ensures found_stays { KeepsFound self.old self.new }
        ensures grows_nothing { ¬ IsSearching self.old → GrowsNothing self.old self.new }
        ensures processes { processes self.new ≡ processes self.old }
        ensures watched { self.new.watched ≡ self.old.watched }
        ensures unchanged { OnErr result (self.new ≡ self.old) }
        ensures needs_none { ¬ IsSearching self.old → IsOk result }
    {
        if let Some(row) = self.row_to_search(p as u32) {
            let whole = self.knows_no_more(clock);
            add_known(
                &self.members,
                whole,
                &mut self.queues,
                row as usize,
                clock,
                &mut self.floor,
                &mut self.found,
            )?;
        }
        self.taken[p] += 1;
        Ok(())
    }

    /// The row of process `p`, if it is watched and the checker searches.
    fn row_to_search(&self, p: u32) -> Option<u32>
        requires { p < processes self.now }
        ensures none { IsNone result → IsSearching self.now → row_of self.now.members p ≡ length self.now.members }
        ensures searching { IsSome result → IsSearching self.now }
        ensures row { IfSome result (λ row. row ≡ row_of self.now.members p) }
        ensures within { IfSome result (λ row. row < length self.now.members) }
    {
        if !self.is_searching() {
            None
        } else if self.watches_all() {
            Some(p)
        } else {
            find_row(&self.members, p)
        }
    }

    /// Whether every process is watched and the clock has a component for each: it then is all that it says of them.
    fn knows_no_more(&self, clock: &Clock) -> bool
        ensures exact { IsTrue result
            ↔ ((length self.now.members ≡ processes self.now) × (length clock.now ≡ processes self.now)) }
        ensures known { IsTrue result → known_of self.now.members clock.now ≡ clock.now }
    {
        self.watches_all() && clock.len() == self.processes
    }

    /// Whether every process is watched: then its number is its row.
    fn watches_all(&self) -> bool
        ensures { IsTrue result ↔ (length self.now.members ≡ processes self.now) }
    {
        self.members.len() == self.processes
    }

    fn is_searching(&self) -> bool
        ensures { IsTrue result ↔ IsSearching self.now }
    {
        self.found.is_none() && !self.starved
    }

    /// Ends the search where there is no memory for a snapshot: from now on the checker counts what it
    /// takes, and wants no memory. A cut that was found stays its report; any other is `Undecided`.
    pub fn starve(&mut self)
        ensures starved { self.new ≡ record self.old { starved = true } }
        ensures stands { (items : List Item) → StandsForItems self.old items → StandsForItems self.new items }
        ensures found_stays { KeepsFound self.old self.new }
    {
        self.starved = true;
    }

    /// Whether it has taken as another one has: they are of as many processes, and have counted as many
    /// snapshots of each process and the same marks.
    pub fn has_taken_alike(&self, other: &Checker) -> bool
        ensures { IsTrue result ↔ HaveTakenAlike other.now self.now }
    {
        are_same_counts(&self.taken, &other.taken)
            && self.processes == other.processes
            && are_same_marks(&self.closed, &other.closed)
            && are_same_marks(&self.lost, &other.lost)
    }

    /// Whether it was starved.
    pub fn is_starved(&self) -> bool
        ensures { result ≡ self.now.starved }
    {
        self.starved
    }

    /// What the snapshots taken tell. A checker that was starved tells a cut that it had found before,
    /// or `Undecided`; so does one that took the mark of a lost process, but it goes on searching.
    pub fn report(&self) -> Report
        ensures value { result ≡ report_of self.now }
        ensures any_clocks { self.now.starved ≡ false → (items : List Item) → StandsForItems self.now items
            → IsReportOfAnyClocks (processes self.now) self.now.watched items result }
        ensures exact { self.now.starved ≡ false → (items : List Item) → StandsForItems self.now items
            → ClocksRise (processes self.now) items
            → IsReportByClocks (processes self.now) self.now.watched items result }
        ensures starved { self.now.starved ≡ true → (items : List Item) → StandsForItems self.now items
            → IsReportOfStarved (processes self.now) self.now.watched items result }
        ensures lost { (p : ℕ) → p < processes self.now → lost_of self.now p ≡ true → result ≢ Nothing }
    {
        if let Some(intervals) = &self.found {
            return Report::Found(cut_of(self.processes, &self.members, intervals));
        }
        if self.starved {
            return Report::Undecided;
        }
        let n = self.processes as usize;
        if are_all_closed(&self.closed[..n]) {
            Report::Nothing
        } else {
            Report::Undecided
        }
    }

    /// How many component tests were made: comparisons of a component of a snapshot with the floor, the
    /// componentwise maximum of every clock that was ever a head.
    pub fn tests(&self) -> u64
        ensures value { result ≡ self.now.floor.tests }
        ensures bound { (items : List Item) → StandsForItems self.now items
            → result ≤ processes self.now * count_by is_snapshot items }
        ensures alone { length self.now.members ≡ 1 → result ≡ 0 }
    {
        self.floor.tests()
    }

    /// How many snapshots of process `p` were taken.
    pub fn taken(&self, p: u32) -> u64
        requires { p < processes self.now }
        ensures value { result ≡ taken_of self.now p }
        ensures snapshots { (items : List Item) → StandsForItems self.now items
            → result ≡ length (clocks_taken p items) }
    {
        self.taken[p as usize]
    }

    /// Whether the close mark of process `p` was taken.
    pub fn closed(&self, p: u32) -> bool
        requires { p < processes self.now }
        ensures value { result ≡ closed_of self.now p }
        ensures mark { (items : List Item) → StandsForItems self.now items
            → result ≡ list_any is_close (notes_taken p items) }
    {
        self.closed[p as usize]
    }

    /// Whether the mark that process `p` was lost was taken: its probe was dropped before it closed.
    pub fn lost(&self, p: u32) -> bool
        requires { p < processes self.now }
        ensures value { result ≡ lost_of self.now p }
        ensures mark { (items : List Item) → StandsForItems self.now items
            → result ≡ list_any is_lost (notes_taken p items) }
    {
        self.lost[p as usize]
    }
}

/// Adds what a snapshot's clock says of the watched processes, as `add_candidate` adds a clock; it is the clock itself
/// where that is known to be whole.
fn add_known(
    members: &PerProcess<u32>,
    whole: bool,
    queues: &mut Queues,
    p: usize,
    clock: &Clock,
    floor: &mut Floor,
    found: &mut Option<PerProcess<u32>>,
) -> Result<(), AllocError>
    requires numbers { All (λ q. q < most_processes) members.now }
    requires whole { IsTrue whole → known_of members.now clock.now ≡ clock.now }
    requires few { length queues.old ≤ most_processes }
    requires within { p < length queues.old }
    requires stable { AreStable queues.old floor.old }
    requires waiting { HaveHeads (length queues.old) floor.old → ⊥ }
    requires none { found.old ≡ None }
    requires room { floor.old.tests + tests_each (length queues.old) * (waiting_in queues.old + 1) < 2 ^ 64 }
    ensures rows { length queues.new ≡ length queues.old }
    ensures stable { AreStable queues.new floor.new }
    ensures left { OnOk result
        (AddsCandidate p (known_of members.now clock.now) queues.old floor.old queues.new floor.new) }
    ensures cut { MatchOption
        found.new
        (HaveHeads (length queues.old) floor.new → ⊥)
        (IsCutOfHeads (length queues.old) floor.new) }
    ensures tests { floor.new.tests + tests_each (length queues.old) * waiting_in queues.new
        ≤ floor.old.tests + tests_each (length queues.old) * (waiting_in queues.old + 1) }
    ensures refused { OnErr result (queues.new ≡ queues.old) }
    ensures no_test { OnErr result (floor.new ≡ floor.old) }
    ensures not_found { OnErr result (found.new ≡ found.old) }
{
    if whole {
        add_candidate(queues, p, clock, floor, found)
    } else {
        add_candidate(queues, p, &clock.restrict(members), floor, found)
    }
}

/// The watched ones of `n` processes, by rising number.
fn members_of(n: u32, watched: &Watched) -> PerProcess<u32>
    requires few { n ≤ most_processes }
    requires watched { AreSomeWatched n watched.now }
    ensures { result ≡ members_of n watched.now }
{
    let mut members = [0; MAX_PROCS];
    let mut count = 0;
    for p in 0..n {
        if watched.has(p) {
            members[count] = p;
            count += 1;
        }
    }
    PerProcess::new(&members[..count])
}

/// The place of process `p` among these.
fn find_row(members: &PerProcess<u32>, p: u32) -> Option<u32>
    ensures none { IsNone result → row_of members.now p ≡ length members.now }
    ensures row { IfSome result (λ row. row ≡ row_of members.now p) }
    ensures within { IfSome result (λ row. row < length members.now) }
{
    for row in 0..members.len() {
        if members.get(row) == p {
            return Some(row);
        }
    }
    None
}

/// The cut of `n` processes that names the interval of each of these members.
fn cut_of(n: u32, members: &PerProcess<u32>, intervals: &PerProcess<u32>) -> GlobalCut
    requires some { 0 < n }
    requires few { n ≤ most_processes }
    requires each { length intervals.now ≡ length members.now }
    ensures { result ≡ cut_of n members.now intervals.now }
{
    let mut cut = [None; MAX_PROCS];
    for p in 0..n {
        if let Some(row) = find_row(members, p) {
            cut[p as usize] = Some(intervals.get(row));
        }
    }
    GlobalCut::new(&cut[..n as usize])
}

fn are_all_closed(closed: &[bool]) -> bool
    ensures { result ≡ list_all (λ closed. closed) closed.now }
{
    closed.iter().all(|closed| *closed)
}

/// Whether two checkers have counted as many snapshots of each process.
fn are_same_counts(some: &[u64], other: &[u64]) -> bool
    ensures { IsTrue result ↔ (some.now ≡ other.now) }
{
    some == other
}

/// Whether two checkers have marked the same processes.
fn are_same_marks(some: &[bool], other: &[bool]) -> bool
    ensures { IsTrue result ↔ (some.now ≡ other.now) }
{
    some == other
}
