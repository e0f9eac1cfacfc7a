//! What a handle holds, as bytes, and made again of them.
ghost use Rattle.std.specs.Prelude.{◌≡◌, ◌↔◌, true, [], All, IfOk, IfSome, IsSome, OnOk, Some, map};
ghost use Rattle.wcp_queue.specs.Checker.{IsSoundChecker};
ghost use Rattle.wcp_queue.specs.Panel.{IsSoundPanel};
ghost use Rattle.wcp_queue.specs.Parts.{state_of};
ghost use Rattle.wcp_c.specs.Questions.{checkers_of, is_panel};
ghost use Rattle.wcp_c.specs.Saving.{CanBeAsked, IsSaved};
ghost use Rattle.wcp_c.specs.declared.watching.Watching.{Watching as Watched};

use crate::questions::Questions;
use crate::several::{MAX_QUESTIONS, Several};
use crate::shelf::Shelf;
use crate::watching::Watching;
use std::alloc::{AllocError, Global};
use wcp_queue::{Checker, CheckerParts, Panel};
use wcp_saved::{SavedWatch, load_watch, save_watch};

/// The bytes of what a handle holds. `Err` where memory runs out.
pub fn save(alloc: Global, held: &Watching) -> Result<Vec<u8>, AllocError>
    ensures { IfOk result (λ bytes. IsSaved held.now bytes.items) }
{
    let parts = SavedWatch {
        watch: held.watch,
        panel: held.questions.is_panel(),
        questions: parts_of(alloc, &held.questions)?,
        tags: held.shelf.to_tags(alloc)?,
    };
    save_watch(alloc, &parts)
}

/// What a handle held when it was saved in these bytes. `None` where they are saved of none. `Err` where memory
/// runs out.
pub fn load(alloc: Global, bytes: &[u8]) -> Result<Option<Watching>, AllocError>
    ensures saved { IfOk result (λ made. IfSome made (λ held. IsSaved held bytes.now)) }
    ensures all { (held : Watched) → IsSaved held bytes.now → IfOk result (λ made. made ≡ Some held) }
{
    let Some(parts) = load_watch(alloc, bytes)? else {
        return Ok(None);
    };
    let Some(checkers) = made_of(alloc, &parts.questions)? else {
        return Ok(None);
    };
    let Some(questions) = asked(parts.panel, checkers) else {
        return Ok(None);
    };
    Ok(Some(Watching {
        watch: parts.watch,
        questions,
        shelf: Shelf::of(parts.tags),
    }))
}

/// The parts of the checker of each question. `Err` where memory runs out.
fn parts_of(alloc: Global, questions: &Questions) -> Result<Vec<CheckerParts>, AllocError>
    ensures value { IfOk result (λ parts. map state_of parts.items ≡ checkers_of questions.now) }
    ensures sound { IfOk result (λ _. All IsSoundChecker (checkers_of questions.now)) }
    ensures asked { IfOk result (λ _. CanBeAsked (is_panel questions.now) (checkers_of questions.now)) }
{
    let mut parts = Vec::new(alloc);
    match questions {
        Questions::One(checker) => parts.push(checker.parts(alloc)?)?,
        Questions::Many(several) => put_parts(alloc, several.panel(), &mut parts)?,
    }
    Ok(parts)
}

/// Puts the parts of the checker of each question of a panel. `Err` where memory runs out.
fn put_parts(alloc: Global, panel: &Panel, parts: &mut Vec<CheckerParts>) -> Result<(), AllocError>
    requires { parts.old.items ≡ [] }
    ensures value { OnOk result (map state_of parts.new.items ≡ panel.now) }
    ensures sound { OnOk result (All IsSoundChecker panel.now) }
    ensures asked { OnOk result (IsSoundPanel panel.now) }
{
    let _first = panel.first();
    for question in 0..panel.questions() {
        let Some(checker) = panel.question(question) else {
            unreachable!()
        };
        parts.push(checker.parts(alloc)?)?;
    }
    Ok(())
}

/// The checkers of these parts, if each is made of them. `Err` where memory runs out.
fn made_of(alloc: Global, parts: &[CheckerParts]) -> Result<Option<Vec<Checker>>, AllocError>
    ensures value { IfOk result (λ made. IfSome made (λ checkers. checkers.items ≡ map state_of parts.now)) }
    ensures sound { IfOk result (λ made. IsSome made ↔ All IsSoundChecker (map state_of parts.now)) }
{
    let mut checkers = Vec::new(alloc);
    for own in parts {
        let Some(checker) = Checker::from_parts(alloc, own)? else {
            return Ok(None);
        };
        checkers.push(checker)?;
    }
    Ok(Some(checkers))
}

/// The questions of these checkers, if they can be those of a handle.
fn asked(panel: bool, checkers: Vec<Checker>) -> Option<Questions>
    ensures value { IfSome result (λ questions. checkers_of questions ≡ checkers.items) }
    ensures panel { IfSome result (λ questions. is_panel questions ≡ panel) }
    ensures some { IsSome result ↔ CanBeAsked panel checkers.items }
{
    if panel {
        return asked_of_panel(checkers);
    }
    let mut checkers = checkers;
    if checkers.len() != 1 {
        return None;
    }
    match checkers.pop() {
        Some(checker) => Some(Questions::One(checker)),
        None => unreachable!(),
    }
}

/// The questions of these checkers, if they can be those of a panel that a handle holds.
fn asked_of_panel(checkers: Vec<Checker>) -> Option<Questions>
    ensures value { IfSome result (λ questions. checkers_of questions ≡ checkers.items) }
    ensures panel { IfSome result (λ questions. is_panel questions ≡ true) }
    ensures some { IsSome result ↔ CanBeAsked true checkers.items }
{
    if checkers.len() > MAX_QUESTIONS {
        return None;
    }
    match Panel::of(checkers) {
        Some(panel) => Some(Questions::Many(Several::of(panel))),
        None => None,
    }
}
