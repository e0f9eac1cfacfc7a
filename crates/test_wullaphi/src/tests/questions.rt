//! Watches that ask several questions at once.
use crossbeam_channel::{Receiver, Sender, bounded};
use std::alloc::Global;
use std::process::Abort;
use std::sync::{Mutex, Wait};
use std::thread::Threads;
use wullaphi::{
    Book, GlobalCut, LentProbe, Loan, Process, Report, Stamped, WatchFault, WatchOutcome, Watched,
    plain_plan, watch_processes, watch_questions,
};

/// How often a process is true at most: more than a question has room for at first.
const OFTEN: u32 = 20;

/// A process of three. It answers whether its message went through.
#[derive(Drop)]
enum Party {
    /// It is true, and then sends a message.
    Sender(Sender<Stamped<u32>>),
    /// It receives the message, and then is true.
    Receiver(Receiver<Stamped<u32>>),
    /// It is true, in each of so many intervals.
    Apart(u32),
}

impl Process for Party {
    type Shared = ();

    type Answer = bool;

    fn run<L: Loan, R: Wait>(self, rt: &R, probe: &mut LentProbe<L>, _shared: &()) -> bool {
        match self {
            Party::Sender(outbox) => {
                probe.observe(rt, true);
                probe.send(rt, &outbox, 1, 7).is_ok()
            }
            Party::Receiver(inbox) => {
                let received = probe.recv(rt, &inbox).is_ok();
                probe.observe(rt, true);
                received
            }
            Party::Apart(intervals) => {
                for _ in 0..intervals {
                    probe.observe(rt, true);
                    let _ = probe.stamp(0, ());
                }
                true
            }
        }
    }
}

/// The sender, the receiver, and one that is true in so many intervals. Where memory runs out, asking again makes them.
fn parties(rt: &impl Abort, alloc: Global, intervals: u32) -> Vec<Party> {
    let channel = bounded(alloc, 1).or_else(|_| bounded(alloc, 1));
    let (outbox, inbox) = channel.expect(rt, "memory");
    let mut parties = Vec::with_capacity(alloc, 3)
        .or_else(|_| Vec::with_capacity(alloc, 3))
        .expect(rt, "memory");
    for party in [
        Party::Sender(outbox),
        Party::Receiver(inbox),
        Party::Apart(intervals),
    ] {
        parties.push(party).expect(rt, "memory");
    }
    parties
}

/// Asks these questions of the three, of whom this set is watched.
fn ask<R: Threads + Wait + Sync + Abort>(
    rt: &R,
    alloc: Global,
    watched: Watched,
    questions: &[Watched],
    intervals: u32,
    book: &Mutex<Book>,
) -> Result<WatchOutcome<bool>, WatchFault> {
    let mut plan = plain_plan(alloc, 3, 8, 4)?;
    plan.watched = watched;
    let parties = parties(rt, alloc, intervals);
    watch_questions(rt, alloc, &plan, 1, questions, parties, &(), book)
}

/// The sets of which the tests ask, with the moment at which all of each could be true. The sender is true before its
/// message, and the receiver after it.
fn sets() -> [(Watched, Report); 5] {
    [
        (Watched::pair(0, 1), Report::Nothing),
        (Watched::pair(0, 2), found([Some(0), None, Some(0)])),
        (Watched::pair(1, 2), found([None, Some(1), Some(0)])),
        (Watched::all(3), Report::Nothing),
        (Watched::these(&[1]), found([None, Some(1), None])),
    ]
}

fn found(cut: [Option<u32>; 3]) -> Report {
    Report::Found(GlobalCut::new(&cut))
}

#[test]
fn each_question_has_its_own_report(rt: HostRuntime) {
    let book = Mutex::new(Book::new(3));
    let questions = sets().map(|(set, _)| set);
    let told = ask(&rt, rt.alloc(), Watched::all(3), &questions, 1, &book).expect(&rt, "a watch");
    let reports = sets().map(|(_, report)| report);
    assert!(rt; told.reports.as_slice() == reports.as_slice());
    assert!(rt; told.outcome.report == Report::Nothing);
    assert!(rt; book.lock(&rt).found().is_none() && book.lock(&rt).has_ended());
}

/// The book tells the cut of the first question, and the outcome has its report.
#[test]
fn the_first_question_is_told(rt: HostRuntime) {
    let book = Mutex::new(Book::new(3));
    let questions = [Watched::pair(1, 2), Watched::pair(0, 1)];
    let told = ask(&rt, rt.alloc(), Watched::all(3), &questions, 1, &book).expect(&rt, "a watch");
    let cut = GlobalCut::new(&[None, Some(1), Some(0)]);
    assert!(rt; told.outcome.report == Report::Found(cut));
    assert_eq!(rt; book.lock(&rt).found(), Some(cut));
}

/// A question is told what a watch tells that watches just its processes.
#[test]
fn a_question_is_told_as_if_it_were_alone(rt: HostRuntime) {
    for (set, report) in sets() {
        let mut plan = plain_plan(rt.alloc(), 3, 8, 4).expect(&rt, "memory");
        plan.watched = set;
        let book = Mutex::new(Book::new(3));
        let parties = parties(&rt, rt.alloc(), 1);
        let told = watch_processes(&rt, rt.alloc(), &plan, 1, parties, &(), &book);
        let told = told.map(|told| told.outcome.report);
        assert!(rt; told == Ok(report));
    }
}

/// The watch of these questions has this fault, and whoever waits is told that it hasn't run.
fn assert_refused<R: Threads + Wait + Sync + Abort>(
    rt: &R,
    alloc: Global,
    questions: &[Watched],
    fault: WatchFault,
) {
    let book = Mutex::new(Book::new(3));
    let refused = ask(rt, alloc, Watched::pair(0, 2), questions, 1, &book);
    assert_eq!(rt; refused.err(), Some(fault));
    assert!(rt; book.lock(rt).has_ended());
}

#[test]
fn a_question_that_cannot_be_asked_is_refused(rt: HostRuntime) {
    let whole = Watched::pair(0, 2);
    let [unwatched, past, empty] = [
        Watched::pair(0, 1),
        Watched::these(&[0, 3]),
        Watched::pair(1, 1),
    ];
    assert_refused(&rt, rt.alloc(), &[], WatchFault::NoQuestion);
    assert_refused(&rt, rt.alloc(), &[unwatched, past], WatchFault::Question(0));
    assert_refused(
        &rt,
        rt.alloc(),
        &[whole, past, empty],
        WatchFault::Question(1),
    );
    assert_refused(
        &rt,
        rt.alloc(),
        &[whole, whole, empty],
        WatchFault::Question(2),
    );
}

/// Where memory runs out, or no thread can be made, no report is told, and asking again tells all.
#[test]
fn questions_that_were_refused_can_be_asked_again(rt: HostRuntime) {
    let book = Mutex::new(Book::new(3));
    let questions = [Watched::pair(0, 1), Watched::pair(1, 2)];
    let told = match ask(&rt, rt.alloc(), Watched::all(3), &questions, OFTEN, &book) {
        Err(WatchFault::Memory | WatchFault::Spawn) => {
            ask(&rt, rt.alloc(), Watched::all(3), &questions, OFTEN, &book)
        }
        ended => ended,
    };
    let reports = [Report::Nothing, found([None, Some(1), Some(0)])];
    assert!(rt; told.expect(&rt, "a watch").reports.as_slice() == reports.as_slice());
}
