//! The checker: takes snapshots, and finds the least cut of those taken by eliminating heads.
//!
//! What is proved. `Checker`, per call against the list of what it took: a new one stands for the empty list, a `take`
//! of the next item of its process leaves one that stands for the list with the item at its end, and is refused for
//! want of memory alone, where the item comes back and nothing has changed. `report` is exact wherever the clocks
//! taken of each process never fall in a component and rise in their own: found with the least cut of taken snapshots
//! of which none precedes another by its clock; else nothing where every close mark was taken; else undecided. One that
//! took the mark of a lost process never says that there is none. Whatever the clocks, a found cut is such a cut, and
//! stays. A checker that was starved takes each item without
//! memory and counts it; its report is the cut found before, or undecided. `tests` is at most the number of processes
//! for each snapshot taken, and 0 for one process.
//! `first_candidate` is the earliest snapshot of a process that may still be in the cut: no cut that comes as more is
//! taken has an earlier one.
//! A checker can be taken apart into plain values and made again of them, equal to what it was; parts that break what
//! is true of every checker are refused.
//!
//! `Panel`, several checkers of the same snapshots, each for watched processes of its own: each takes every item,
//! whatever becomes of the others, and its report is that of a checker alone. One that has no memory for an item is
//! starved, and takes it then; it is never starved once it is done searching, nor at a mark that ends a process. All
//! its questions have counted alike what they took of each process, and checkers that have are made a panel.
#![tactic(auto)]

mod checker;
mod elimination;
mod floor;
mod pairs;
mod panel;
mod question;
mod queue;
mod sound;

pub use checker::{Checker, CheckerParts};
pub use panel::Panel;
