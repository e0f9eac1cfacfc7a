//! How the questions of a panel take an item, and whether they have taken alike.
ghost use Rattle.std.specs.Prelude.{◌≡◌, ◌↔◌, IsTrue, length};
ghost use Rattle.wcp_queue.specs.Checker.{MayTake};
ghost use Rattle.wcp_queue.specs.Panel.{MayAllTake, EachTakes, TakesOrIsStarved, HaveTakenAlike, IsSoundPanel};

use crate::checker::Checker;
use wcp_clock::Item;

/// Each question takes an item.
pub fn take_each(questions: &mut [Checker], item: &Item)
    requires { MayAllTake questions.old item.now }
    ensures { EachTakes questions.old questions.new item.now }
{
    for question in 0..questions.len() {
        take_or_starve(&mut questions[question], item);
    }
}

/// Whether there is a question, and each has taken as the first one has.
pub fn are_alike(questions: &[Checker]) -> bool
    ensures { IsTrue result ↔ IsSoundPanel questions.now }
{
    if questions.is_empty() {
        return false;
    }
    for question in questions {
        if !question.has_taken_alike(&questions[0]) {
            return false;
        }
    }
    true
}

/// A question takes an item; where there is no memory for it, it is starved first.
fn take_or_starve(checker: &mut Checker, item: &Item)
    requires { MayTake checker.old item.now }
    ensures { TakesOrIsStarved checker.old checker.new item.now }
{
    let Err(_) = checker.take_note(item.from, &item.note) else {
        return;
    };
    checker.starve();
    match checker.take_note(item.from, &item.note) {
        Ok(()) => {}
        Err(_) => unreachable!(),
    }
}
