//! The conditions of hosts, said by regular expressions over the texts of a host's events.
//!
//! What is proved. `read_conditions` (`read`): the conditions are those that the words say, in their order, by one
//! definition (`conditions_of` in `specs/Asked.antt`), each with its host, its rule and its expressions, and each
//! expression is what the grammar of regular expressions reads in its text. `Usage` comes exactly where the words say
//! no conditions, unless memory ran out; `Expression` only where they say some: it names the host of the first that
//! wasn't read, the grammar reads all before it, and the error is one that the crate `regex` may give for that text.
//! That an expression which the grammar reads is accepted isn't proved. `hosts`: there is a condition, and no
//! two are of one host. `Judge::holds`, which wants no memory: whether the condition holds at the host's next event, by
//! the texts of all its events so far (`holds_at_last` in `specs/Holding.antt`).
#![tactic(auto)]

mod condition;
mod fault;
mod judge;
mod rule;
mod saying;
mod word;

pub use condition::{Condition, read_conditions};
pub use fault::ConditionFault;
pub use judge::Judge;
pub use rule::Rule;
pub use saying::ConditionWords;
