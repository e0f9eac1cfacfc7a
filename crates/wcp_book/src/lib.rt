//! The book of a watch: how many snapshots each process emitted and the checker took, posted once for each process,
//! the totals of what was posted so far, the cut that was found, told as soon as it is found, what the watch came to,
//! once it has ended, the news of these two for those who wait for it, and whether a watch has the book that runs.
//!
//! What is proved. `Book` is the list of the shares posted so far, a place for each process, the cut, once it was told,
//! what its watch came to, once it has ended, and whether it is in use. Its type keeps that `totals` are the sums of
//! the shares, and that no one is left waiting for a cut that was told or an end that has come; so both hold whenever
//! its lock is free. `post` is accepted exactly where there is such a process and no share of it was posted, and puts
//! the share in its place; else nothing changes, and it says which of the two it was. `tell` puts the cut where none
//! was told, and `end` ends the book with what a report of the watch says: each changes nothing else. `begin` and
//! `claim` make it that of a new watch, `claim` of one that has it from then on, and `refuse` that of one that doesn't
//! run; where a watch that runs has it, each changes nothing. `release` gives it back, and ends it with `NotRun` where
//! nothing has ended it. `answer` is the cut that was told, and else how the book has ended. `news` changes nothing;
//! where there is an answer, a wait for it returns just that.
//!
//! What a thread that sleeps is told is what the book was told. A `Book<A>` may tell what `A` allows, and `NotRun`:
//! `tell` and `end` require that what they are given is allowed, and a wait gives a `ToldAnswer<A>`, which only a book
//! makes, and of which `answer` gives what is allowed. All this is proved for every `A`, so a body that told another
//! answer would have no proof that it is allowed. `NotRun` needs none: whoever waits is told so where the book is
//! dropped. That a thread which sleeps is woken, and isn't told `NotRun` in place of the answer, is tested.
#![tactic(auto)]

mod answers;
mod book;
mod cut_answer;
mod news;

pub use answers::{Answers, AnyAnswer};
pub use book::{Book, BookFault};
pub use cut_answer::{CutAnswer, ToldAnswer};
pub use news::{Awaited, News};
