//! A checker of one watch, which refuses the notes of others.
ghost use Rattle.std.specs.Prelude.{◌≡◌, ◌≢◌, ◌<◌, ◌≤◌, ◌↔◌, ℕ, List, true, false, MatchOption, IfOk, OnOk, OnErr};
ghost use Rattle.std.specs.Prelude.{IsSome, IsNone, IfSome, option_to_list, [], ◌∷◌};
ghost use Rattle.wcp_clock.specs.Limits.{most_processes};
ghost use Rattle.wcp_clock.specs.declared.note.Item.{Item};
ghost use Rattle.wcp_model.specs.Watched.{AreSomeWatched};
ghost use Rattle.wcp_model.specs.ReportByClocks.{ClocksRise};
ghost use Rattle.wcp_queue.specs.Checker.{MayTake, StandsForItems, lost_of, processes, report_of};
ghost use Rattle.wcp_c.specs.Answers.{done, no_note};
ghost use Rattle.wcp_c.specs.Checkers.{IsInCut, IsNewChecker, IsTaken, has_taken, lose_refusal, lost_item};
ghost use Rattle.wcp_c.specs.Checkers.{take_refusal, IsSameWatch};
ghost use Rattle.wcp_c.specs.Questions.{first_of, TakesNote};
ghost use Rattle.wcp_c.specs.declared.questions.Questions.TheVariants.{Many};
ghost use Rattle.wcp_c.specs.Notes.{HoldsNote, item_of};
ghost use Rattle.wcp_c.specs.Tags.{IsTagOf, StandsForTaken, TakenItem, TakesTagged, items_of, tags_by};

use crate::answer::{
    DONE, ENDED, NO_MEMORY, NO_NOTE, NOT_AGREED, OTHER_WATCH, OUT_OF_RANGE, OUT_OF_TURN, STRANGER,
    TAKEN_ALREADY,
};
use crate::in_cut::member_of;
use crate::note::WcpNote;
use crate::questions::Questions;
use crate::several::Several;
use crate::shelf::Shelf;
use std::alloc::{AllocError, Global};
use wcp_clock::{Item, Note};
use wcp_model::Watched;
use wcp_queue::Checker;
use wcp_saved::Tagged;

/// The questions, the number of the watch whose notes they take, and the tags of those that may be in a cut.
#[derive(Drop)]
pub struct Watching {
    pub watch: u64,
    pub questions: Questions,
    pub shelf: Shelf,
}

/// A checker of a watch, on the heap.
pub fn boxed(
    alloc: Global,
    watch: u64,
    processes: u32,
    watched: Watched,
) -> Result<Box<Watching>, AllocError>
    requires few { processes ≤ most_processes }
    requires watched { AreSomeWatched processes watched }
    ensures { IfOk result (λ made. IsNewChecker made.value watch processes (watched ∷ []) false) }
{
    let checker = Checker::new(alloc, processes, watched)?;
    held(alloc, watch, Questions::One(checker))
}

/// Several questions of a watch, on the heap.
pub fn boxed_several(
    alloc: Global,
    watch: u64,
    several: Several,
) -> Result<Box<Watching>, AllocError>
    ensures { IfOk result
        (λ made. made.value ≡ record { watch = watch; questions = Many several; shelf = [] }) }
{
    held(alloc, watch, Questions::Many(several))
}

/// Questions of a watch that have no tag, on the heap.
fn held(alloc: Global, watch: u64, questions: Questions) -> Result<Box<Watching>, AllocError>
    ensures { IfOk result
        (λ made. made.value ≡ record { watch = watch; questions = questions; shelf = [] }) }
{
    let watching = Watching {
        watch,
        questions,
        shelf: Shelf::new(alloc),
    };
    Ok(Box::new(alloc, watching)?)
}

impl Watching {
    /// Takes a note, or says why not.
    pub fn take(&mut self, note: &WcpNote) -> u32
        ensures note { result ≡ no_note ↔ (HoldsNote note.now → ⊥) }
        ensures first { HoldsNote note.now
            → MatchOption (take_refusal self.old note.now) (IsTaken result) (λ why. result ≡ why) }
        ensures taken { result ≡ done → TakesNote self.old.questions self.new.questions (item_of note.now) }
        ensures tagged { result ≡ done → TakesTagged self.old self.new (item_of note.now) note.now.tag }
        ensures watch { IsSameWatch self.old self.new }
        ensures same { result ≢ done → self.new ≡ self.old }
    {
        let Some(item) = note.item() else {
            return NO_NOTE;
        };
        if let Some(why) = self.refusal(note, &item) {
            return why;
        }
        match self.take_item(&item, note.tag) {
            Ok(()) => DONE,
            Err(_) => NO_MEMORY,
        }
    }

    /// Why this note is refused, which holds this item.
    fn refusal(&self, note: &WcpNote, item: &Item) -> Option<u32>
        requires held { HoldsNote note.now }
        requires item { item.now ≡ item_of note.now }
        ensures value { result ≡ take_refusal self.now note.now }
        ensures none_is_done { IfSome result (λ why. why ≢ done) }
    {
        let first = self.questions.first();
        if note.processes != first.processes() {
            return Some(OTHER_WATCH);
        }
        if note.watch != self.watch {
            return Some(STRANGER);
        }
        if note.watched != 1 && self.questions.watches(item.from) {
            return Some(NOT_AGREED);
        }
        let has_ended = first.closed(item.from) || first.lost(item.from);
        if !has_ended && u64::from(item.note.place()) == first.taken(item.from) {
            return None;
        }
        if has_taken(first, item) {
            return Some(TAKEN_ALREADY);
        }
        Some(if has_ended { ENDED } else { OUT_OF_TURN })
    }

    /// Takes an item, the next of its process, with its tag. `Err` where memory runs out: nothing has changed.
    fn take_item(&mut self, item: &Item, tag: u64) -> Result<(), AllocError>
        requires next { MayTake (first_of self.old.questions) item.now }
        requires few { item.now.from < most_processes }
        ensures taken { OnOk result (TakesNote self.old.questions self.new.questions item.now) }
        ensures tagged { OnOk result (TakesTagged self.old self.new item.now tag) }
        ensures watch { IsSameWatch self.old self.new }
        ensures unchanged { OnErr result (self.new ≡ self.old) }
    {
        let Some(tagged) = tagged(item, tag) else {
            self.questions.take(item)?;
            return Ok(());
        };
        self.take_tagged(item, tagged)
    }

    /// The same, of a snapshot with a tag. Not inlined, so that notes without one are as fast as can be.
    #[inline(never)]
    fn take_tagged(&mut self, item: &Item, tagged: Tagged) -> Result<(), AllocError>
        requires next { MayTake (first_of self.old.questions) item.now }
        requires tag { tags_by item.now.from item.now.note tagged.tag ≡ tagged ∷ [] }
        ensures taken { OnOk result (TakesNote self.old.questions self.new.questions item.now) }
        ensures tagged { OnOk result (TakesTagged self.old self.new item.now tagged.tag) }
        ensures watch { IsSameWatch self.old self.new }
        ensures unchanged { OnErr result (self.new ≡ self.old) }
    {
        self.shelf.push(tagged)?;
        if let Err(error) = self.questions.take(item) {
            self.shelf.pop();
            return Err(error);
        }
        self.shelf.drop_spent(&self.questions);
        Ok(())
    }

    /// The tag of process `p`'s member of the cut that a question found; 0 where its note came without one.
    pub fn tag_in_cut(&self, checker: &Checker, p: u32) -> Option<u64>
        ensures some { IsSome result → (k : ℕ) × IsInCut (report_of checker.now) p k }
        ensures none { IsNone result → (k : ℕ) → IsInCut (report_of checker.now) p k → ⊥ }
        ensures tag { IfSome result (λ tag. (taken : List TakenItem) (k : ℕ)
            → StandsForTaken checker.now self.now.shelf taken
            → ClocksRise (processes checker.now) (items_of taken) → IsInCut (report_of checker.now) p k
            → IsTagOf taken p k tag) }
    {
        let report = checker.report();
        let interval = member_of(&report, p)?;
        Some(self.shelf.find(p, interval).unwrap_or(0))
    }

    /// Process `p` is gone: it takes the mark of a lost process, or says why not.
    #[tactic(auto, using(crate::proofs::Losing::lost_now))]
    pub fn lose(&mut self, p: u32) -> u32
        ensures first { MatchOption (lose_refusal (first_of self.old.questions) p) (result ≡ done) (λ why. result ≡ why) }
        ensures taken { result ≡ done
            → TakesNote self.old.questions self.new.questions (lost_item (first_of self.old.questions) p) }
        ensures tagged { result ≡ done → TakesTagged self.old self.new (lost_item (first_of self.old.questions) p) 0 }
        ensures lost { result ≡ done → (items : List Item) → StandsForItems (first_of self.old.questions) items
            → lost_of (first_of self.new.questions) p ≡ true }
        ensures watch { IsSameWatch self.old self.new }
        ensures same { result ≢ done → self.new ≡ self.old }
    {
        let first = self.questions.first();
        if p >= first.processes() {
            return OUT_OF_RANGE;
        }
        if first.closed(p) || first.lost(p) {
            return ENDED;
        }
        let Ok(count) = u32::try_from(first.taken(p)) else {
            return OUT_OF_TURN;
        };
        let lost = Item {
            from: p,
            note: Note::Lost { count },
        };
        match self.questions.take(&lost) {
            Ok(()) => DONE,
            Err(_) => unreachable!(),
        }
    }
}

/// Whether the checker took this item, or one like it, before.
fn has_taken(checker: &Checker, item: &Item) -> bool
    requires { item.now.from < processes checker.now }
    ensures { result ≡ has_taken checker.now item.now.from item.now.note }
{
    let taken = checker.taken(item.from);
    match item.note {
        Note::Snap { number, .. } => u64::from(number) < taken,
        Note::Close { count } => checker.closed(item.from) && u64::from(count) == taken,
        Note::Lost { count } => checker.lost(item.from) && u64::from(count) == taken,
    }
}

/// The tag of a snapshot, unless it is 0.
fn tagged(item: &Item, tag: u64) -> Option<Tagged>
    requires { item.now.from < most_processes }
    ensures list { option_to_list result ≡ tags_by item.now.from item.now.note tag }
    ensures tag { IfSome result (λ tagged. tagged.tag ≡ tag) }
{
    match &item.note {
        Note::Snap { number, clock } if tag != 0 => {
            let _in_range = *number;
            Some(Tagged {
                process: item.from,
                interval: clock.get(item.from),
                tag,
            })
        }
        _ => None,
    }
}
