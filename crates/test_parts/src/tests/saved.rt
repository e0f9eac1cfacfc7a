use std::alloc::Global;
use std::process::Abort;
use wcp_clock::{Clock, Note};
use wcp_model::{GlobalCut, Report, Watched};
use wcp_queue::Checker;
use wcp_saved::{load, save};

/// The bytes of a checker. Where memory runs out, asking again gives them.
fn bytes_of(rt: &impl Abort, alloc: Global, checker: &Checker) -> Vec<u8> {
    match save(alloc, checker) {
        Ok(bytes) => bytes,
        Err(_) => save(alloc, checker).expect(rt, "memory"),
    }
}

/// What these bytes spell. Where memory runs out, asking again gives it.
fn loaded(rt: &impl Abort, alloc: Global, bytes: &[u8]) -> Option<Checker> {
    match load(alloc, bytes) {
        Ok(loaded) => loaded,
        Err(_) => load(alloc, bytes).expect(rt, "memory"),
    }
}

/// A checker that took the first snapshot of process 0, of two. Where memory runs out, asking again makes it.
fn checker_of_two(rt: &impl Abort, alloc: Global) -> Checker {
    match Checker::new(alloc, 2, Watched::all(2)) {
        Ok(checker) => checker,
        Err(_) => Checker::new(alloc, 2, Watched::all(2)).expect(rt, "memory"),
    }
}

/// Takes a note of process `from`, saves the checker and loads it, and goes on with the one that was loaded.
fn take_and_restart(
    rt: &impl Abort,
    alloc: Global,
    checker: Checker,
    from: u32,
    note: &Note,
) -> Checker {
    let mut checker = checker;
    assert!(rt; from < checker.processes());
    assert!(rt; !checker.closed(from) && !checker.lost(from));
    assert_eq!(rt; u64::from(note.place()), checker.taken(from));
    if checker.take_note(from, note).is_err() {
        assert!(rt; checker.take_note(from, note).is_ok());
    }
    let bytes = bytes_of(rt, alloc, &checker);
    let again = loaded(rt, alloc, &bytes).expect(rt, "a checker");
    assert_eq!(rt; again.report(), checker.report());
    assert_eq!(rt; again.tests(), checker.tests());
    again
}

fn snapshot(number: u32, clock: Clock) -> Note {
    Note::Snap { number, clock }
}

/// Two snapshots of process 0 wait for one of process 1, which precedes neither and has the second as its fellow.
#[test]
fn a_checker_goes_on_after_each_restart(rt: HostRuntime) {
    let mut first = Clock::new(2);
    let checker = checker_of_two(&rt, rt.alloc());
    let checker = take_and_restart(&rt, rt.alloc(), checker, 0, &snapshot(0, first));
    assert!(rt; first.len() == 2 && first.tick(0, 9));
    let checker = take_and_restart(&rt, rt.alloc(), checker, 0, &snapshot(1, first));
    assert_eq!(rt; checker.report(), Report::Undecided);
    let mut second = Clock::new(2);
    assert!(rt; second.tick(1, 9) && second.len() == first.len());
    let checker = take_and_restart(
        &rt,
        rt.alloc(),
        checker,
        1,
        &snapshot(0, second.merge(&first)),
    );
    let cut = GlobalCut::new(&[Some(1), Some(1)]);
    assert_eq!(rt; checker.report(), Report::Found(cut));
}

/// Each byte that changes, and each that is cut off or added, leaves bytes that spell no checker.
#[test]
fn each_changed_byte_is_refused(rt: HostRuntime) {
    let checker = checker_of_two(&rt, rt.alloc());
    let mut bytes = bytes_of(&rt, rt.alloc(), &checker);
    assert!(rt; loaded(&rt, rt.alloc(), &bytes).is_some());
    for place in 0..bytes.len() {
        let byte = bytes.get(place).copied().expect(&rt, "a byte");
        assert!(rt; place < bytes.len());
        bytes[place] = byte ^ 1;
        assert!(rt; loaded(&rt, rt.alloc(), &bytes).is_none());
        assert!(rt; place < bytes.len());
        bytes[place] = byte;
        assert!(rt; loaded(&rt, rt.alloc(), &bytes[..place]).is_none());
    }
    assert!(rt; loaded(&rt, rt.alloc(), &bytes).is_some());
}
