//! Why an answer stands, where that is asked.
ghost use Rattle.std.specs.Prelude.{◌<◌, [], length, string_bytes, IfOk, IfSome, OnOk};
ghost use Rattle.trace_log.specs.Turns.{seen_logged};
ghost use Rattle.trace_condition.specs.Conditions.{HaveHosts};
ghost use Rattle.trace_explain.specs.Views.{watched_by};
ghost use Rattle.trace_detect.specs.Reasons.{IsWhySo, KeepsSo, TookSo};

use crate::watcher::watched_of;
use std::alloc::{AllocError, Global};
use trace_condition::Condition;
use trace_explain::History;
use trace_log::Logged;

/// What is kept of the events of these hosts, before the first: a history where reasons are asked for, and else
/// nothing.
pub(crate) fn history_of(
    alloc: Global,
    conditions: &[Condition],
    why: bool,
) -> Result<Option<History>, AllocError>
    requires { HaveHosts conditions.now }
    ensures { IfOk result (KeepsSo why conditions.now []) }
{
    if !why {
        return Ok(None);
    }
    let watched = watched_of(alloc, conditions)?;
    Ok(Some(History::new(alloc, watched)?))
}

/// Keeps the next event of the watched host at `place`; `holds` says whether its condition holds at it.
pub(crate) fn keep(
    history: &mut Option<History>,
    place: usize,
    logged: &Logged<'_>,
    holds: bool,
) -> Result<(), AllocError>
    requires { IfSome history.old (λ kept. place < length (watched_by kept)) }
    ensures { OnOk result
        (TookSo place (record { logged = seen_logged logged.now; holds = holds }) history.old history.new) }
{
    match history {
        Some(history) => history.take(place, logged, holds),
        None => Ok(()),
    }
}

/// Why the answer stands that the events so far have: the text of an explanation. Where no reasons are asked for it is
/// empty.
pub(crate) fn why_it_stands(alloc: Global, history: &Option<History>) -> Result<String, AllocError>
    ensures { (conditions : _) (why : _) (logged : _) → KeepsSo why conditions logged history.now →
        IfOk result (λ text. IsWhySo why conditions logged (string_bytes text)) }
{
    let Some(history) = history else {
        return Ok(String::new(alloc));
    };
    let explanation = history.explain()?;
    history.text(&explanation)
}
