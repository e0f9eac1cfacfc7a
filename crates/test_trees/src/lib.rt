//! Tests of trees of relays that run: what comes out at the root, which no clause says.
#![tactic(auto)]

#[cfg(test)]
mod tests;
