//! Tests of pictures: one with a cut and one with none, and why there is no picture; and of the program that draws
//! them: reads and writes that fail.
#![tactic(auto)]

#[cfg(test)]
mod tests;
