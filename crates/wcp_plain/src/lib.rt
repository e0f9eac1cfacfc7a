//! Plain, slow programs that decide the definitions of happened-before, true states and satisfying
//! cuts, for tests of what is fast.
//!
//! What is proved. Slow programs for tests, on which nothing of the product stands: `happened_before`, `is_true_state`
//! and `is_satisfying_cut` answer yes exactly where the definitions hold.
#![tactic(auto)]

mod cuts;
mod order;

pub use cuts::{is_satisfying_cut, is_true_state};
pub use order::happened_before;
