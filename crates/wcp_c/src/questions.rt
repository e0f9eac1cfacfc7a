//! The questions of a handle.
ghost use Rattle.std.specs.Prelude.{◌≡◌, ◌<◌, ◌≤◌, ◌↔◌, true, length, All, IfSome, IsNone, IsOk, OnErr, OnOk};
ghost use Rattle.std.specs.FinSet as set;
ghost use Rattle.std.specs.List.{list_any};
ghost use Rattle.wcp_clock.specs.Notes.{is_last};
ghost use Rattle.wcp_queue.specs.Checker.{processes, MayTake};
ghost use Rattle.wcp_queue.specs.Panel.{watched_by, HaveTakenAlike};
ghost use Rattle.wcp_c.specs.Questions.{checker_at, checkers_of, first_of, is_panel, watches, TakesNote};

use crate::several::Several;
use std::alloc::AllocError;
use wcp_clock::Item;
use wcp_queue::{Checker, Panel};

/// What is asked of the notes: one question, or several of the same notes.
#[derive(Drop)]
pub enum Questions {
    /// One, which refuses a note for which it has no memory.
    One(Checker),
    /// Several, of which one that has no memory for a note is starved.
    Many(Several),
}

impl Questions {
    /// How many there are.
    pub fn count(&self) -> usize
        ensures { result ≡ length (checkers_of self.now) }
    {
        match self {
            Questions::One(_) => 1,
            Questions::Many(several) => several.panel().questions(),
        }
    }

    /// The checker of the first question. What it counted of each process, the others did too.
    #[inline(always)]
    pub fn first(&self) -> &Checker
        ensures value { result.now ≡ first_of self.now }
        ensures alike { All (HaveTakenAlike result.now) (checkers_of self.now) }
    {
        match self {
            Questions::One(checker) => checker,
            Questions::Many(several) => several.panel().first(),
        }
    }

    /// The checker of a question, if there is one of this number.
    pub fn get(&self, question: usize) -> Option<&Checker>
        ensures none { IsNone result ↔ length (checkers_of self.now) ≤ question }
        ensures value { IfSome result (λ checker. checker.now ≡ checker_at self.now question) }
    {
        match self {
            Questions::One(checker) if question == 0 => Some(checker),
            Questions::One(_) => None,
            Questions::Many(several) => several.panel().question(question),
        }
    }

    /// Whether they are those of a panel.
    pub fn is_panel(&self) -> bool
        ensures { result ≡ is_panel self.now }
    {
        match self {
            Questions::One(_) => false,
            Questions::Many(_) => true,
        }
    }

    /// Whether some question watches process `p`.
    pub fn watches(&self, p: u32) -> bool
        ensures { result ≡ watches self.now p }
    {
        match self {
            Questions::One(checker) => checker.watched().has(p),
            Questions::Many(several) => does_one_watch(several.panel(), p),
        }
    }

    /// Takes an item, the next of its process. `Err` where memory runs out: nothing has changed.
    #[inline(always)]
    pub fn take(&mut self, item: &Item) -> Result<(), AllocError>
        requires { MayTake (first_of self.old) item.now }
        ensures taken { OnOk result (TakesNote self.old self.new item.now) }
        ensures processes { processes (first_of self.new) ≡ processes (first_of self.old) }
        ensures watched { watched_by (checkers_of self.new) ≡ watched_by (checkers_of self.old) }
        ensures unchanged { OnErr result (self.new ≡ self.old) }
        ensures last_needs_none { is_last item.now.note ≡ true → IsOk result }
        ensures panel_needs_none { is_panel self.old ≡ true → IsOk result }
    {
        match self {
            Questions::One(checker) => checker.take_note(item.from, &item.note),
            Questions::Many(several) => {
                several.take(item);
                Ok(())
            }
        }
    }
}

/// Whether some question of a panel watches process `p`.
fn does_one_watch(panel: &Panel, p: u32) -> bool
    ensures { result ≡ list_any (λ checker. set.contains checker.watched p) panel.now }
{
    for question in 0..panel.questions() {
        if panel.watched(question).has(p) {
            return true;
        }
    }
    false
}
