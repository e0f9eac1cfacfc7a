//! Which tags can't be asked for any more.
ghost use Rattle.std.specs.Prelude.{◌≡◌, ◌⊎◌, All, Contains, IsTrue};
ghost use Rattle.wcp_queue.specs.Checker.{report_of};
ghost use Rattle.wcp_c.specs.Questions.{checkers_of};
ghost use Rattle.wcp_c.specs.Tags.{IsSpent};
ghost use Rattle.wcp_saved.specs.declared.watch.Tagged.{Tagged as Noted};

use crate::questions::Questions;
use wcp_model::Report;
use wcp_queue::{Checker, Panel};
use wcp_saved::Tagged;

/// Drops the tags that can't be asked of any question any more.
pub fn drop_spent(tags: &mut Vec<Tagged>, questions: &Questions)
    ensures right { (tagged : Noted) → Contains tags.new.items tagged → Contains tags.old.items tagged }
    ensures kept { (tagged : Noted) → Contains tags.old.items tagged
        → Contains tags.new.items tagged ⊎ All (λ checker. IsSpent checker tagged) (checkers_of questions.now) }
{
    let mut place = 0;
    'tags: while place < tags.len() {
        if is_spent_for_all(questions, &tags[place]) {
            tags.swap_remove(place);
        } else {
            place += 1;
        }
    }
}

/// Whether a tag can't be asked of any question any more.
fn is_spent_for_all(questions: &Questions, tagged: &Tagged) -> bool
    ensures { IsTrue result → All (λ checker. IsSpent checker tagged.now) (checkers_of questions.now) }
{
    match questions {
        Questions::One(checker) => is_spent(checker, &checker.report(), tagged),
        Questions::Many(several) => is_spent_in(several.panel(), tagged),
    }
}

/// Whether a tag can't be asked of any question of a panel any more.
fn is_spent_in(panel: &Panel, tagged: &Tagged) -> bool
    ensures { IsTrue result → All (λ checker. IsSpent checker tagged.now) panel.now }
{
    for question in 0..panel.questions() {
        let Some(checker) = panel.question(question) else {
            unreachable!()
        };
        if !is_spent(checker, &checker.report(), tagged) {
            return false;
        }
    }
    true
}

/// Whether a tag can't be asked of a question any more, by what its checker reports.
fn is_spent(checker: &Checker, report: &Report, tagged: &Tagged) -> bool
    requires { report.now ≡ report_of checker.now }
    ensures { IsTrue result → IsSpent checker.now tagged.now }
{
    if !checker.watched().has(tagged.process) {
        return true;
    }
    if let Report::Found(cut) = report {
        return tagged.process >= cut.len() || cut.get(tagged.process) != Some(tagged.interval);
    }
    match checker.first_candidate(tagged.process) {
        Some(first) => tagged.interval < first,
        None => true,
    }
}
