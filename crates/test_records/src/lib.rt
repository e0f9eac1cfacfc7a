//! Tests of what processes record as they go, and of the log of it: which events of watched threads know each other,
//! what a record of the last events keeps, each refusal, texts that JSON escapes, and a log that is asked for again
//! where memory ran out, whichever allocation fails.
#![tactic(auto)]

#[cfg(test)]
mod tests;
