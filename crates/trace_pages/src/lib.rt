//! The page of a log that shows what was answered to questions, or the still picture of an answer.
//!
//! What is proved. `shown`, of one question: the bytes are the file of a page whose words are what is answered to this
//! question without one, and which answer that is, to the log as far as it was read when the answer was known
//! (`IsLogShown` in `specs/Pages.antt`); or, where a picture is asked for, the still picture of such a page. Behind the
//! moment 500 events more were read; or fewer, where the log ended, or reading stopped for a fault, which changes no
//! answer. Where the page says that the log doesn't go on, the whole input was read. Where lines wait at the end of the
//! log, and no moment was known of the events before it, the page says that the answer isn't known. The status is that
//! of the answer.
//!
//! `shown_together`, of several questions: the page says of each what is answered to that one alone, or that it has no
//! answer; or, where lines wait, that it isn't known (`AreShown` in `specs/Several.antt`). Where the page says that the
//! log doesn't go on, and no lines wait, the whole input was read. The picture is of the first answer that has a moment,
//! or of the first of all.
//!
//! Tested, and said by no clause: which events a page shows, what it says of the hosts' conditions, by which names it
//! calls questions, and how a picture draws the events.
#![tactic(auto)]

mod answered;
mod asked_hosts;
mod host_watch;
mod log_page;
mod recorder;
mod replying;
mod several;
mod showing;

pub use several::shown_together;
pub use showing::shown;
