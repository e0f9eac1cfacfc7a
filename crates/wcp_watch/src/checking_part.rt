use crate::checker_end::CheckerEnd;
use crate::checking::check_loop;
use std::sync::{Mutex, Wait};
use wcp_book::Book;
use wcp_queue::Panel;
use wcp_relay::CheckerInbox;
use wcp_threads::{Part, RunsWith};

/// The questions of a watch, and where its checker takes from.
#[derive(Drop)]
pub struct Checking {
    pub inbox: CheckerInbox,
    pub panel: Panel,
}

impl Part<CheckerEnd> for Checking {
    ghost use Rattle.wcp_queue.specs.Panel.{watched_by};
    ghost use Rattle.wcp_watch.specs.CheckerEnds.{IsFreshFor, IsEndOfLoop};

    ghost is_ready = { λ c. IsFreshFor c.inbox c.panel };

    ghost is_end = { λ c end. IsEndOfLoop c.inbox (watched_by c.panel) end };
}

impl RunsWith<Mutex<Book>, CheckerEnd> for Checking {
    fn run_with<R: Wait>(self, rt: &R, book: &Mutex<Book>) -> CheckerEnd {
        let Checking { inbox, panel } = self;
        check_loop(rt, inbox, panel, book)
    }
}
