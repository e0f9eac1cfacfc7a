use anyhow::Result;
use std::sync::Wait;
use wullaphi::{LentProbe, Loan, Stamped};

/// What a process does at each message, beside its work.
pub trait Attending {
    /// What goes over the channels.
    type Message: Drop;

    /// The message that brings this value to process `to`.
    fn wrap(&mut self, to: u32, value: u64) -> Result<Self::Message>;

    /// The value of a message that came.
    fn unwrap(&mut self, message: Self::Message) -> Result<u64>;

    /// Says whether the condition of the process holds.
    fn judge<R: Wait>(&mut self, rt: &R, holds: bool);
}

/// Nobody watches: a message is its value, and nobody is told of the condition.
#[derive(Clone, Copy)]
pub struct Unwatched;

impl Attending for Unwatched {
    type Message = u64;

    fn wrap(&mut self, _to: u32, value: u64) -> Result<u64> {
        Ok(value)
    }

    fn unwrap(&mut self, message: u64) -> Result<u64> {
        Ok(message)
    }

    fn judge<R: Wait>(&mut self, _rt: &R, _holds: bool) {}
}

/// A watched process: each message goes with its stamp, and the probe observes the condition.
impl<L: Loan> Attending for LentProbe<L> {
    type Message = Stamped<u64>;

    fn wrap(&mut self, to: u32, value: u64) -> Result<Stamped<u64>> {
        Ok(self.stamp(to, value).map_err(|(refusal, _)| refusal)?)
    }

    fn unwrap(&mut self, message: Stamped<u64>) -> Result<u64> {
        Ok(self.receive(message).map_err(|(refusal, _)| refusal)?)
    }

    fn judge<R: Wait>(&mut self, rt: &R, holds: bool) {
        self.observe(rt, holds);
    }
}
