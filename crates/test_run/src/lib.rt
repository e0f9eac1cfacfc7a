//! Tests of workers that run in threads: what they leave, which no clause says.
#![tactic(auto)]

#[cfg(test)]
mod tests;
