ghost use Rattle.std.specs.Prelude.{◌≡◌, ◌<◌, ◌≤◌, ◌↔◌, ℕ, length, slice_get, All, Some, None, IsTrue};
ghost use Rattle.std.specs.Prelude.{IsOk, OnOk, IfErr};
ghost use Rattle.wcp_watch.specs.Seats.{AreOfWatch, AreSeats, AreAllSeated};
ghost use Rattle.wcp_watch.specs.declared.settle_fault.SettleFault.TheVariants as settle_fault;

use crate::settle_fault::SettleFault;
use std::array::from_fn;

/// What is left of a part of a watch: it knows the number of the watch, and its own number among the parts of its
/// kind.
pub(crate) trait End: Drop {
    ghost watch_of: { Self → ℕ };

    ghost place_of: { Self → ℕ };

    fn watch_number(&self) -> u64
        ensures { result ≡ watch_of self.now };

    fn place(&self) -> u32
        ensures { result ≡ place_of self.now };
}

/// `N` places where nothing sits.
pub(crate) fn empty<E, const N: usize>() -> [Option<E>; N]
    ensures all { length result ≡ N }
    ensures none { (place : ℕ) (end : E) → slice_get result place ≡ Some (Some end) → ⊥ }
{
    from_fn(
        |_| -> Option<E>
            ensures { result ≡ None }
        { None },
    )
}

/// Seats each end at the place of its number, where nobody sits yet. `Err` where one is of another watch, or two have
/// one number.
pub(crate) fn seat<E: End>(
    watch: u64,
    mut ends: Vec<E>,
    seats: &mut [Option<E>],
) -> Result<(), SettleFault>
    requires within { All (λ end. E.watch_of end ≡ watch → E.place_of end < length seats.old) ends.items }
    requires free { (place : ℕ) (end : E) → slice_get seats.old place ≡ Some (Some end) → ⊥ }
    ensures exact { IsOk result ↔ AreOfWatch E.watch_of E.place_of watch ends.items }
    ensures seats { OnOk result (AreSeats E.place_of ends.items seats.new) }
    ensures fault { IfErr result (λ fault. fault ≡ settle_fault.Stranger) }
{
    while let Some(end) = ends.pop() {
        if end.watch_number() != watch {
            return Err(SettleFault::Stranger);
        }
        let place = end.place() as usize;
        prove!(place < seats.len());
        if seats[place].is_some() {
            return Err(SettleFault::Stranger);
        }
        seats[place] = Some(end);
    }
    Ok(())
}

/// Whether somebody sits at each of the first places.
pub(crate) fn are_seated<E>(seats: &[Option<E>], count: u32) -> bool
    requires { count ≤ length seats.now }
    ensures { IsTrue result ↔ AreAllSeated count seats.now }
{
    for place in 0..count as usize {
        if seats[place].is_none() {
            return false;
        }
    }
    true
}
