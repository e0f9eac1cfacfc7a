ghost use Rattle.std.specs.Prelude.{◌≡◌, ◌-◌, ◌++◌, ◌<◌, ◌≤◌, length, replicate, slice_get, slice_index};
ghost use Rattle.std.specs.Prelude.{slice_index_or, Some, None};
ghost use Rattle.wcp_clock.specs.Limits.{most_processes};
ghost use Rattle.wcp_clock.specs.Merge.{merged};

use crate::limits::MAX_PROCS;
use std::alloc::AllocError;
use std::marker::Model;

/// A type with a value that fills the places of an array behind the last in use.
pub trait Padding: Copy {
    ghost padding: { Self };

    fn padding() -> Self
        ensures { result ≡ padding };
}

impl Padding for u32 {
    ghost padding = { 0 };

    fn padding() -> Self {
        0
    }
}

impl Padding for Option<u32> {
    ghost padding = { None };

    fn padding() -> Self {
        None
    }
}

/// A value for each process, of which there are 1 to 16, in memory of its own size.
///
/// A contract sees it as the list of these values.
#[derive(Copy, Debug, PartialEq, Eq)]
pub struct PerProcess<T: Padding> {
    pub(crate) count: u32,
    pub(crate) values: [T; MAX_PROCS],
}

impl<T: Padding> Model for PerProcess<T> {
    ghost use Rattle.std.specs.Prelude.{◌≡◌, ℕ, ◌-◌, ◌<◌, ◌≤◌, List, ◌++◌, length, take, drop, replicate};
    ghost use Rattle.wcp_clock.specs.Limits.{most_processes};

    ghost Value = { List T };

    ghost view = { λ v. take v.count v.values };

    ghost invariant = { λ v. (0 < v.count) × (v.count ≤ most_processes) × (length v.values ≡ most_processes)
        × (drop v.count v.values ≡ replicate (most_processes - v.count) T.padding) };

    ghost inverse = { λ list. record {
      count = length list;
      values = list ++ replicate (most_processes - length list) T.padding;
    } };

    ghost use Rattle.std.proofs.Common.{arith};
    ghost use Rattle.std.proofs.lemmas.List.{length-take-le};
    ghost use Rattle.wcp_clock.specs.Padding.{padded_prefix};

    ghost inverse_ok = { λ v h i. record {
      count = length-take-le v.count v.values (Prim.omega (arith, h.1, h.2)) i;
      values = padded_prefix T.padding v.count most_processes v.values h.1 h.2 h.3 i;
    } };
}

impl<T: Padding> Clone for PerProcess<T> {
    fn clone(&self) -> Result<Self, AllocError> {
        Ok(*self)
    }
}

impl<T: Padding> PerProcess<T> {
    /// These values, one for each process.
    pub fn new(values: &[T]) -> PerProcess<T>
        requires some { 0 < length values.now }
        requires within { length values.now ≤ most_processes }
        ensures { result ≡ values.now }
    {
        let mut padded = [T::padding(); MAX_PROCS];
        padded[..values.len()].copy_from_slice(values);
        PerProcess {
            count: values.len() as u32,
            values: padded,
        }
    }

    /// How many processes there are.
    pub fn len(&self) -> u32
        ensures value { result ≡ length self.now }
        ensures some { 0 < length self.now }
        ensures within { length self.now ≤ most_processes }
    {
        self.count
    }

    /// The value of process `p`. Where there is no such process, that of the places behind the last: `None` in a cut.
    pub fn get(&self, p: u32) -> T
        ensures there { p < length self.now → slice_get self.now p ≡ Some result }
        ensures value { result ≡ slice_index_or self.now p T.padding }
    {
        if p < self.count {
            self.values()[p as usize]
        } else {
            T::padding()
        }
    }

    pub(crate) fn values(&self) -> &[T]
        ensures { result.now ≡ self.now }
    {
        &self.values[..self.count as usize]
    }
}

impl PerProcess<u32> {
    /// The number of process `p`, and 0 where there is no such process.
    pub(crate) fn get_or_zero(&self, p: u32) -> u32
        requires { p < most_processes }
        ensures { result ≡ slice_index self.now p }
    {
        self.values[p as usize]
    }

    /// The numbers, and 0 in each place behind the last.
    pub(crate) fn padded(&self) -> [u32; MAX_PROCS]
        ensures { result ≡ self.now ++ replicate (most_processes - length self.now) 0 }
    {
        self.values
    }

    /// The greater of two numbers, for each process.
    pub(crate) fn merge(&self, other: &PerProcess<u32>) -> PerProcess<u32>
        requires { length self.now ≡ length other.now }
        ensures { result ≡ merged self.now other.now }
    {
        PerProcess {
            count: self.count,
            values: greater(&self.values, &other.values),
        }
    }
}

/// The greater of two numbers, in each place.
fn greater(mine: &[u32; MAX_PROCS], theirs: &[u32; MAX_PROCS]) -> [u32; MAX_PROCS]
    ensures { result ≡ merged mine.now theirs.now }
{
    let mut greater = *mine;
    for (place, number) in theirs.iter().enumerate() {
        greater[place] = greater[place].max(*number);
    }
    greater
}
