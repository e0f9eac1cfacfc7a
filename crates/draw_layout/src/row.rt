//! Numbers of one process.
ghost use Rattle.std.specs.Prelude.{◌≡◌, ◌↔◌, ℕ, List, [], ◌∷◌, ◌++◌, IsTrue, OnOk};
ghost use Rattle.draw_layout.specs.Rows.{EndsWith, HasOneMore, RiseUpTo};

use std::alloc::{AllocError, Global};
use std::marker::Model;

/// Numbers of one process: columns of its events, or intervals.
///
/// A contract sees it as the list of these numbers.
#[derive(Debug, Drop)]
pub struct Row {
    numbers: Vec<u32>,
}

impl Model for Row {
    ghost Value = { List ℕ };

    ghost view = { λ row. row.numbers.items };
}

impl Row {
    /// No numbers.
    pub(crate) fn new(alloc: Global) -> Row
        ensures { result ≡ [] }
    {
        Row {
            numbers: Vec::new(alloc),
        }
    }

    /// One more number. `Err` where memory runs out.
    pub(crate) fn push(&mut self, number: u32) -> Result<(), AllocError>
        ensures { OnOk result (self.new ≡ self.old ++ number ∷ []) }
    {
        self.numbers.push(number)?;
        Ok(())
    }

    /// One more number, unless it is the last one already: the numbers go on rising. `Err` where memory
    /// runs out.
    pub(crate) fn insert(&mut self, number: u32) -> Result<(), AllocError>
        requires { RiseUpTo number self.old }
        ensures { OnOk result (HasOneMore number self.old self.new) }
    {
        if self.is_last(number) {
            return Ok(());
        }
        self.push(number)
    }

    /// Whether the number is the last one.
    fn is_last(&self, number: u32) -> bool
        ensures { IsTrue result ↔ EndsWith number self.now }
    {
        match self.numbers.last() {
            Some(last) => *last == number,
            None => false,
        }
    }

    /// The numbers.
    pub fn numbers(&self) -> &[u32]
        ensures { result.now ≡ self.now }
    {
        &self.numbers
    }
}
