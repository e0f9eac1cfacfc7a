//! Tests of the public calls of the parts, over examples that were worked by hand.
#![tactic(auto)]

#[cfg(test)]
mod tests;
