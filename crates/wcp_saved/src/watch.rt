//! What is asked of the notes of one watch, as bytes.
ghost use Rattle.std.specs.Prelude.{◌≡◌, All, IfOk, IfSome, IsSome};
ghost use Rattle.wcp_queue.specs.Checker.{IsSoundChecker};
ghost use Rattle.wcp_saved.specs.Watches.{watch_of, watch_spelling, IsWatchInRange, WatchState};

use crate::bytes::{are_same, is_sealed, seal, unseal};
use crate::watch_reading::watch_parts_of;
use crate::watch_writing::watch_words_of;
use std::alloc::{AllocError, Global};
use wcp_queue::CheckerParts;

/// The process of a snapshot, its interval, and the tag of its note.
#[derive(Clone, Copy)]
pub struct Tagged {
    pub process: u32,
    pub interval: u32,
    pub tag: u64,
}

/// What is asked of the notes of one watch, in plain values.
#[derive(Drop)]
pub struct SavedWatch {
    /// The number of the watch.
    pub watch: u64,
    /// Whether the questions are those of a panel.
    pub panel: bool,
    /// The checker of each question.
    pub questions: Vec<CheckerParts>,
    /// The tags of snapshots that may be in a cut.
    pub tags: Vec<Tagged>,
}

/// The bytes of a watch, from which [`load_watch`] makes it again. `Err` where memory runs out.
pub fn save_watch(alloc: Global, parts: &SavedWatch) -> Result<Vec<u8>, AllocError>
    ensures spelled { IfOk result (λ bytes. bytes.items ≡ watch_spelling (watch_of parts.now)) }
    ensures range { IfOk result (λ _. IsWatchInRange (watch_of parts.now)) }
{
    let words = watch_words_of(alloc, parts)?;
    seal(alloc, &words)
}

/// The parts of the watch that these bytes spell. `None` where they spell none: something in them changed, or
/// another version wrote them. What their checksum tells takes no memory. Whether its questions can be those of
/// checkers is not tested. `Err` where memory runs out.
pub fn load_watch(alloc: Global, bytes: &[u8]) -> Result<Option<SavedWatch>, AllocError>
    ensures spelled { IfOk result (λ made. IfSome made (λ parts. bytes.now ≡ watch_spelling (watch_of parts))) }
    ensures range { IfOk result (λ made. IfSome made (λ parts. IsWatchInRange (watch_of parts))) }
    // What was saved is loaded, and so these bytes spell nothing else.
    ensures all { (saved : WatchState) → All IsSoundChecker saved.questions → IsWatchInRange saved
        → bytes.now ≡ watch_spelling saved → IfOk result (λ made. IsSome made) }
    ensures same { (saved : WatchState) → All IsSoundChecker saved.questions → IsWatchInRange saved
        → bytes.now ≡ watch_spelling saved → IfOk result (λ made. IfSome made (λ parts. watch_of parts ≡ saved)) }
{
    if !is_sealed(bytes) {
        return Ok(None);
    }
    let words = unseal(alloc, bytes)?;
    let parts = watch_parts_of(alloc, &words)?;
    let spelled = save_watch(alloc, &parts)?;
    if !are_same(&spelled, bytes) {
        return Ok(None);
    }
    Ok(Some(parts))
}
