//! The checker that a handle holds, if any, behind a pointer that C may keep.
ghost use Rattle.std.specs.Prelude.{◌≡◌, Option, Some, None};
ghost use Rattle.wcp_c.specs.declared.watching.Watching.{Watching as Watched};
ghost use Rattle.wcp_c.specs.Held.{held_owns, held_coded};

use crate::parts::BoxParts;
use crate::watching::Watching;
use std::alloc::Global;
use std::marker::Model;
use std::ptr::null_mut;

/// A checker on the heap, or none.
#[repr(C)]
#[derive(Drop)]
pub struct Held {
    ptr: *mut u8,
    alloc: Global,
    pub ghost checker: { Option Watched } by { held_coded },
}

impl Model for Held {
    ghost also_owns = { λ h. held_owns h.alloc h.ptr h.checker };
}

impl Held {
    /// None.
    pub fn none(alloc: Global) -> Held
        ensures { result.checker ≡ None }
    {
        Held {
            ptr: null_mut(),
            alloc,
        }
    }

    /// The checker with these parts.
    pub fn of_parts(parts: BoxParts<Watching, Global>) -> Held
        ensures { result.checker ≡ Some parts.value }
    {
        let BoxParts { ptr, alloc } = parts;
        Held {
            ptr: ptr as *mut u8,
            alloc,
        }
    }

    /// The parts of the checker.
    pub fn into_parts(self) -> BoxParts<Watching, Global>
        requires { (checker : Watched) × (self.checker ≡ Some checker) }
        ensures { self.checker ≡ Some result.value }
    {
        let Held { ptr, alloc } = self;
        BoxParts {
            ptr: ptr as *mut Watching,
            alloc,
        }
    }
}
