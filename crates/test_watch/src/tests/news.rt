//! Those who wait for the news of a book: before it is told and after, and over a book that is begun anew.
use std::alloc::Global;
use std::process::Abort;
use std::sync::{Mutex, Wait};
use std::thread::{Threads, join, sleep};
use std::time::{Clock, Duration};
use wcp_book::{Book, CutAnswer, News};
use wcp_model::{GlobalCut, Report};

/// How many milliseconds a thread waits at least, so that it is asleep as it is told.
const ASLEEP: u64 = 20;

/// The cut that is told.
fn the_cut() -> GlobalCut {
    GlobalCut::new(&[Some(3), Some(1)])
}

/// The news of this book.
fn news_of(rt: &impl Abort, alloc: Global, book: &mut Book) -> News {
    book.news(alloc).expect(rt, "memory")
}

/// Changes the book in this way, once those who wait for its news are asleep.
fn change_late<R: Wait + Clock>(rt: &R, book: &Mutex<Book>, answer: &CutAnswer) {
    sleep(rt, Duration::from_millis(ASLEEP));
    match *answer {
        CutAnswer::Found(cut) => book.lock(rt).tell(cut),
        CutAnswer::Nothing => book.lock(rt).end(Report::Nothing),
        CutAnswer::Undecided => book.lock(rt).end(Report::Undecided),
        CutAnswer::NotRun => book.lock(rt).refuse(),
    }
}

/// Two threads wait for the news of a book, which is changed in this way once they are asleep: both are told of it.
fn assert_told_late<R: Threads + Wait + Sync + Clock + Abort>(
    rt: &R,
    alloc: Global,
    answer: &CutAnswer,
) {
    let mut book = Book::new(2);
    let first = news_of(rt, alloc, &mut book);
    let second = news_of(rt, alloc, &mut book);
    let book = Mutex::new(book);
    let (_, told) = join(
        rt,
        || change_late(rt, &book, answer),
        || join(rt, || first.wait(rt), || second.wait(rt)),
    );
    assert_eq!(rt; (told.0.answer(), told.1.answer()), (*answer, *answer));
    let found = matches!(answer, CutAnswer::Found(_));
    assert_eq!(rt; book.into_inner().has_ended(), !found);
}

#[test]
fn threads_that_sleep_are_told_the_cut(rt: HostRuntime) {
    assert_told_late(&rt, rt.alloc(), &CutAnswer::Found(the_cut()));
}

#[test]
fn threads_that_sleep_are_told_of_the_end(rt: HostRuntime) {
    assert_told_late(&rt, rt.alloc(), &CutAnswer::Nothing);
    assert_told_late(&rt, rt.alloc(), &CutAnswer::Undecided);
    assert_told_late(&rt, rt.alloc(), &CutAnswer::NotRun);
}

/// Waits for the news, and compares what they tell.
fn assert_told(rt: &(impl Abort + Wait), news: News, answer: CutAnswer) {
    assert_eq!(rt; news.wait(rt).answer(), answer);
}

#[test]
fn those_who_wait_go_on_over_a_book_begun_anew(rt: HostRuntime) {
    let mut book = Book::new(2);
    let early = news_of(&rt, rt.alloc(), &mut book);
    book.begin(3);
    book.tell(the_cut());
    book.end(Report::Found(the_cut()));
    book.begin(2);
    let late = news_of(&rt, rt.alloc(), &mut book);
    book.end(Report::Undecided);
    assert_told(&rt, early, CutAnswer::Found(the_cut()));
    assert_told(&rt, late, CutAnswer::Undecided);
}

/// Ends a copy of this book.
fn end_copy(book: &Book) {
    book.copied().end(Report::Nothing);
}

#[test]
fn a_copy_tells_no_one_and_a_book_that_is_gone_of_no_watch(rt: HostRuntime) {
    let mut book = Book::new(2);
    let first = news_of(&rt, rt.alloc(), &mut book);
    end_copy(&book);
    book.tell(the_cut());
    assert_told(&rt, first, CutAnswer::Found(the_cut()));
    book.begin(2);
    let second = news_of(&rt, rt.alloc(), &mut book);
    drop(book);
    assert_told(&rt, second, CutAnswer::NotRun);
}
