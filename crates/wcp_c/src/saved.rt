//! A checker that is saved as bytes, to go on after a restart of its program.
ghost use Rattle.std.specs.Prelude.{◌≡◌, ◌≢◌, ◌<◌, ◌≤◌, ◌↔◌, ◌⊎◌, None, Some, IsSome, IfSome, drop, length, take};
ghost use Rattle.wcp_saved.specs.Watches.{watch_spelling};
ghost use Rattle.wcp_c.specs.Answers.{done, in_use, no_checker, no_memory, no_room, no_saved};
ghost use Rattle.wcp_c.specs.Checkers.{checker_in};
ghost use Rattle.wcp_c.specs.Saving.{IsSaved, state_held};
ghost use Rattle.wcp_c.specs.declared.watching.Watching.{Watching};

use crate::answer::{DONE, IN_USE, NO_CHECKER, NO_MEMORY, NO_SAVED};
use crate::handle::WcpChecker;
use crate::saving::{load, save};
use crate::single::put;
use std::alloc::Global;

/// Puts the bytes of all that the handle holds into `bytes`, if they have room there, and how many they are into
/// `written`.
#[unsafe(no_mangle)]
pub extern "C" fn wcp_checker_save(
    alloc: Global,
    checker: &mut WcpChecker,
    bytes: &mut [u8],
    written: &mut u64,
) -> u32
    ensures none { result ≡ no_checker ↔ (checker_in checker.old ≡ None) }
    ensures answers { IsSome (checker_in checker.old)
        → (result ≡ done) ⊎ (result ≡ no_room) ⊎ (result ≡ no_memory) }
    ensures saved { result ≡ done
        → IfSome (checker_in checker.old) (λ held. IsSaved held (take written.new bytes.new)) }
    ensures room { result ≡ done → written.new ≤ length bytes.new }
    ensures behind { drop written.new bytes.new ≡ drop written.new bytes.old }
    ensures no_room { result ≡ no_room → length bytes.old < written.new }
    ensures wanted { result ≡ no_room
        → IfSome (checker_in checker.old) (λ held. written.new ≡ length (watch_spelling (state_held held))) }
    ensures kept { result ≢ done → bytes.new ≡ bytes.old }
    ensures unwritten { (result ≡ no_memory) ⊎ (result ≡ no_checker) → written.new ≡ written.old }
    ensures same { checker_in checker.new ≡ checker_in checker.old }
{
    let Some(saver) = checker.take_out(alloc) else {
        return NO_CHECKER;
    };
    let saved = save(alloc, &saver);
    *checker = WcpChecker::of(saver);
    match saved {
        Ok(text) => put(text.as_slice(), DONE, bytes, written),
        Err(_) => NO_MEMORY,
    }
}

/// Puts into the handle what was saved in these bytes.
#[unsafe(no_mangle)]
pub extern "C" fn wcp_checker_load(alloc: Global, checker: &mut WcpChecker, bytes: &[u8]) -> u32
    ensures in_use { result ≡ in_use ↔ IsSome (checker_in checker.old) }
    ensures loaded { result ≡ done → IfSome (checker_in checker.new) (λ held. IsSaved held bytes.now) }
    // What was saved in these bytes is loaded, and so stands for what it had taken.
    ensures back { result ≡ done → (held : Watching) → IsSaved held bytes.now → checker_in checker.new ≡ Some held }
    ensures there { result ≡ done → IsSome (checker_in checker.new) }
    ensures refused { result ≡ no_saved → (held : Watching) → IsSaved held bytes.now → ⊥ }
    ensures answers { (result ≡ done) ⊎ (result ≡ in_use) ⊎ (result ≡ no_saved) ⊎ (result ≡ no_memory) }
    ensures same { result ≢ done → checker_in checker.new ≡ checker_in checker.old }
{
    if checker.is_held() {
        return IN_USE;
    }
    match load(alloc, bytes) {
        Ok(Some(held)) => match Box::new(alloc, held) {
            Ok(made) => {
                *checker = WcpChecker::of(made);
                DONE
            }
            Err(_) => NO_MEMORY,
        },
        Ok(None) => NO_SAVED,
        Err(_) => NO_MEMORY,
    }
}
