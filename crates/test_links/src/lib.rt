//! Tests of rings and lanes between threads, over examples that were worked by hand.
#![tactic(auto)]

#[cfg(test)]
mod tests;
