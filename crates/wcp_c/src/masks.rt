//! Sets of watched processes, as masks.
ghost use Rattle.std.specs.Prelude.{◌≡◌, ◌≤◌, ◌↔◌, All, IfOk, IfSome, IsSome, IsTrue};
ghost use Rattle.wcp_clock.specs.Limits.{most_processes};
ghost use Rattle.wcp_model.specs.Watched.{AreSomeWatched};
ghost use Rattle.wcp_c.specs.Masks.{AreSetsOf, IsMask, IsSetOfMask};

use std::alloc::{AllocError, Global};
use wcp_clock::ProcessSet;
use wcp_model::Watched;

/// Whether each of these masks names some of so many processes, and nobody else.
pub fn are_masks(processes: u32, masks: &[u32]) -> bool
    requires { processes ≤ most_processes }
    ensures { IsTrue result ↔ All (IsMask processes) masks.now }
{
    for mask in masks {
        if set_of_mask(processes, *mask).is_none() {
            return false;
        }
    }
    true
}

/// The sets of these masks. `Err` where memory runs out.
pub fn sets_of(alloc: Global, processes: u32, masks: &[u32]) -> Result<Vec<Watched>, AllocError>
    requires few { processes ≤ most_processes }
    requires masks { All (IsMask processes) masks.now }
    ensures sets { IfOk result (λ sets. AreSetsOf masks.now sets.items) }
    ensures some { IfOk result (λ sets. All (AreSomeWatched processes) sets.items) }
{
    let mut sets = Vec::with_capacity(alloc, masks.len())?;
    for mask in masks {
        match set_of_mask(processes, *mask) {
            Some(set) => sets.push(set)?,
            None => unreachable!(),
        }
    }
    Ok(sets)
}

/// The set of a mask that names some of so many processes, and nobody else.
fn set_of_mask(processes: u32, mask: u32) -> Option<Watched>
    requires { processes ≤ most_processes }
    ensures is { IsSome result ↔ IsMask processes mask }
    ensures set { IfSome result (λ set. IsSetOfMask mask set) }
    ensures some { IfSome result (λ set. AreSomeWatched processes set) }
{
    if mask == 0 {
        return None;
    }
    let mut set = ProcessSet::none();
    let mut rest = mask;
    for p in 0..processes {
        if rest % 2 == 1 {
            set = set.with(p);
        }
        rest /= 2;
    }
    if rest != 0 {
        return None;
    }
    Some(set)
}
