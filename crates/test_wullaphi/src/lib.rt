//! Tests of whole watches: what they answer where memory or a thread is refused, or a process is lost, what those are
//! told who wait for the cut, and what locks, cells and queues order, which no clause says.
#![tactic(auto)]

#[cfg(test)]
mod tests;
