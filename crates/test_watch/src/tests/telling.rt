//! Processes that go on until they read that the cut was found, and end then.
use super::starting::{Process, processes};
use std::sync::{Mutex, Wait};
use std::thread;
use wcp_book::Book;
use wcp_model::{GlobalCut, Report};
use wcp_threads::RunsWith;
use wcp_tree::ProbeEnd;
use wcp_watch::run_parts;

impl RunsWith<Mutex<Book>, ProbeEnd> for Process {
    fn run_with<R: Wait>(self, rt: &R, book: &Mutex<Book>) -> ProbeEnd {
        let Process { mut probe } = self;
        for _ in rt.forever() {
            probe.observe(true);
            probe.flush_in_watch(rt);
            if book.lock(rt).found().is_some() {
                break;
            }
            thread::yield_now();
        }
        probe.close_in_watch(rt)
    }
}

#[test]
fn processes_that_wait_for_the_cut_end(rt: HostRuntime) {
    let book = Mutex::new(Book::new(16));
    let parts = processes(&rt, rt.alloc(), 16);
    let end = run_parts(&rt, rt.alloc(), parts, &book, &book)
        .expect(&rt, "threads")
        .checker;
    let cut = GlobalCut::new(&[Some(0); 16]);
    assert_eq!(rt; (end.fault(), end.report()), (None, Report::Found(cut)));
    assert_eq!(rt; book.into_inner().found(), Some(cut));
}
