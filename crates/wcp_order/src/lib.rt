//! Fit orders: the tasks of a workload in an order that keeps that of each process and puts each
//! receive after its send.
//!
//! What is proved. `is_fit`: true exactly where the tasks are in a fit order as they are listed. `fit_order`: an order
//! that it gives is fit, and where it gives none there is none and the place is the first task that can never be done;
//! it answers that the tasks stand in order exactly where they do.
#![tactic(auto)]

mod channels;
mod listing;
mod order;

pub use channels::channel;
pub use listing::is_fit;
pub use order::{FitOrder, fit_order};
