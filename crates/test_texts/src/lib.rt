//! Tests of texts: what the readers make of them, the texts that are printed, the first fault of a plan, and calls that
//! are asked again.
#![tactic(auto)]

#[cfg(test)]
mod tests;
