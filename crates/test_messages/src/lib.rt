//! Tests of logs without clocks: what a log is said as with clocks, whether or not its lines wait, each fault of a
//! line, reads that give little, and a log that is said again where memory ran out, whichever allocation fails.
//! `tests/oracles/messages.py` tries random logs.
#![tactic(auto)]

#[cfg(test)]
mod tests;
