//! Several questions, as many as a caller may ask.
ghost use Rattle.std.specs.Prelude.{◌≡◌, ◌≤◌, length};
ghost use Rattle.wcp_queue.specs.Checker.{processes, MayTake};
ghost use Rattle.wcp_queue.specs.Panel.{question_at, watched_by, EachTakes};
ghost use Rattle.wcp_c.specs.Masks.{most_questions};

use std::marker::Model;
use wcp_clock::Item;
use wcp_queue::Panel;

/// The most questions.
pub const MAX_QUESTIONS: usize = 1024;

/// The questions of a panel, `MAX_QUESTIONS` at most.
///
/// A contract sees them as it sees the panel, as the list of their checkers.
#[derive(Drop)]
pub struct Several {
    panel: Panel,
}

impl Model for Several {
    ghost use Rattle.std.specs.Prelude.{◌≤◌, List, length};
    ghost use Rattle.wcp_queue.specs.Checker.{CheckerState};
    ghost use Rattle.std.specs.Coded.{codes};
    ghost use Rattle.wcp_clock.specs.ProcessNumbers.{numbers_code};
    ghost use Rattle.wcp_c.specs.Masks.{most_questions};

    ghost Value = { List CheckerState };

    ghost coded = { Prim.hlevel (codes, numbers_code) };

    ghost view = { λ several. several.panel };

    ghost invariant = { λ several. length several.panel ≤ most_questions };
}

impl Several {
    /// The questions of a panel.
    pub fn of(panel: Panel) -> Several
        requires { length panel ≤ most_questions }
        ensures { result ≡ panel }
    {
        Several { panel }
    }

    /// The panel whose questions they are.
    pub fn panel(&self) -> &Panel
        ensures value { result.now ≡ self.now }
        ensures few { length self.now ≤ most_questions }
    {
        &self.panel
    }

    /// Each of them takes an item, the next of its process. Not inlined, so that one question alone is as fast as can
    /// be.
    #[inline(never)]
    pub fn take(&mut self, item: &Item)
        requires { MayTake (question_at self.old 0) item.now }
        ensures each { EachTakes self.old self.new item.now }
        ensures processes { processes (question_at self.new 0) ≡ processes (question_at self.old 0) }
        ensures watched { watched_by self.new ≡ watched_by self.old }
    {
        let _first = self.panel.first();
        self.panel.take(item);
    }
}
