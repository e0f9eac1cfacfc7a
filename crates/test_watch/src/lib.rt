//! Tests of watches that run to their end: the report and the book, which no clause says whole.
#![tactic(auto)]

#[cfg(test)]
mod tests;
