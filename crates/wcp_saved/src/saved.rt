ghost use Rattle.std.specs.Prelude.{◌≡◌, IfOk, IfSome, Some};
ghost use Rattle.wcp_queue.specs.Checker.{CheckerState};
ghost use Rattle.wcp_queue.specs.Parts.{state_of};
ghost use Rattle.wcp_saved.specs.Spelling.{spelling, IsInRange, IsSaved};

use crate::bytes::{are_same, is_sealed, seal, unseal};
use crate::reading::parts_of;
use crate::writing::words_of;
use std::alloc::{AllocError, Global};
use wcp_queue::{Checker, CheckerParts};

/// The bytes of a checker, from which [`load`] makes it again. `Err` where memory runs out.
pub fn save(alloc: Global, checker: &Checker) -> Result<Vec<u8>, AllocError>
    ensures { IfOk result (λ bytes. IsSaved checker.now bytes.items) }
{
    let parts = checker.parts(alloc)?;
    spell(alloc, &parts)
}

/// The checker that these bytes spell. `None` where they spell none that a checker can be: something in
/// them changed, or another version wrote them. What their checksum tells takes no memory. `Err` where memory runs out.
pub fn load(alloc: Global, bytes: &[u8]) -> Result<Option<Checker>, AllocError>
    ensures saved { IfOk result (λ made. IfSome made (λ checker. IsSaved checker bytes.now)) }
    // The bytes that `save` gives are loaded as the same checker, and so are saved of no other.
    ensures all { (saved : CheckerState) → IsSaved saved bytes.now → IfOk result (λ made. made ≡ Some saved) }
{
    if !is_sealed(bytes) {
        return Ok(None);
    }
    let words = unseal(alloc, bytes)?;
    let parts = parts_of(alloc, &words)?;
    let spelled = spell(alloc, &parts)?;
    if !are_same(&spelled, bytes) {
        return Ok(None);
    }
    Checker::from_parts(alloc, &parts)
}

/// The spelling of what a checker holds. `Err` where memory runs out.
fn spell(alloc: Global, parts: &CheckerParts) -> Result<Vec<u8>, AllocError>
    ensures spelled { IfOk result (λ bytes. bytes.items ≡ spelling (state_of parts.now)) }
    ensures range { IfOk result (λ _. IsInRange (state_of parts.now)) }
{
    let words = words_of(alloc, parts)?;
    seal(alloc, &words)
}
