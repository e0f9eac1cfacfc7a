//! Tests of logs with vector clocks and of the program that watches them: both forms and the reverse, each fault, and
//! logs that are cut; the search for the earliest moment, over logs whose moments were worked out by hand; what words
//! ask for and what conditions they say; files of questions, and each fault of them; reads and writes that fail or give
//! little; and what is told of an input that is read. `tests/wcptrace.py` tries the program as it is built.
#![tactic(auto)]

#[cfg(test)]
mod tests;
