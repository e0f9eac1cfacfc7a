//! The handle of a checker, in a caller's memory.
ghost use Rattle.std.specs.Prelude.{◌≡◌, ◌↔◌, Some, None, IsTrue, IsSome, IfSome, IsNone};

use crate::held::Held;
use crate::parts::BoxParts;
use crate::watching::Watching;
use std::alloc::Global;
use std::mem;

/// The first word of a handle that holds a checker.
const HELD: u32 = 0x5743_4331;

/// A handle, which holds a checker or none.
#[repr(C)]
#[derive(Drop)]
pub struct WcpChecker {
    held_word: u32,
    reserved: u32,
    pub held: Held,
    ghost says: { (held_word ≡ 1464025905) ↔ IsSome held.checker },
}

impl WcpChecker {
    /// A handle that holds none.
    pub fn none(alloc: Global) -> WcpChecker
        ensures { result.held.checker ≡ None }
    {
        WcpChecker {
            held_word: 0,
            reserved: 0,
            held: Held::none(alloc),
        }
    }

    /// A handle that holds this checker.
    pub fn of(checker: Box<Watching>) -> WcpChecker
        ensures { result.held.checker ≡ Some checker.value }
    {
        WcpChecker {
            held_word: HELD,
            reserved: 0,
            held: Held::of_parts(BoxParts::of(checker)),
        }
    }

    /// Takes the checker out of the handle, if it holds one.
    pub fn take_out(&mut self, alloc: Global) -> Option<Box<Watching>>
        ensures none { IsNone result → self.old.held.checker ≡ None }
        ensures some { IfSome result (λ checker. self.old.held.checker ≡ Some checker.value) }
        ensures left { self.new.held.checker ≡ None }
    {
        let WcpChecker {
            held_word,
            reserved: _,
            held,
        } = mem::replace(self, WcpChecker::none(alloc));
        if held_word != HELD {
            return None;
        }
        Some(held.into_parts().into_box())
    }

    /// Whether the handle holds a checker.
    pub fn is_held(&self) -> bool
        ensures { IsTrue result ↔ IsSome self.now.held.checker }
    {
        self.held_word == HELD
    }
}
