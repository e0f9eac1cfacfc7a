use std::alloc::Global;
use std::process::Abort;
use wcp_clock::{Clock, Item, Note};
use wcp_model::{GlobalCut, Report};
use wcp_queue::Panel;

/// A panel of all pairs of three processes. Where memory runs out, asking again makes it.
fn pairs_of_three(rt: &impl Abort, alloc: Global) -> Panel {
    match Panel::pairs(alloc, 3) {
        Ok(panel) => panel,
        Err(_) => Panel::pairs(alloc, 3).expect(rt, "memory"),
    }
}

/// Each question takes the next note of a process.
fn take(rt: &impl Abort, panel: &mut Panel, from: u32, note: &Note) {
    assert!(rt; from < panel.processes());
    assert!(rt; !panel.closed(from));
    assert!(rt; !panel.lost(from));
    let place = note.place();
    assert_eq!(rt; u64::from(place), panel.taken(from));
    panel.take_note(from, note);
}

/// Each question takes a snapshot of a process.
fn take_snapshot(rt: &impl Abort, panel: &mut Panel, from: u32, number: u32, clock: Clock) {
    take(rt, panel, from, &Note::Snap { number, clock });
}

/// The report of the question of a pair, unless it was starved.
fn report(rt: &impl Abort, panel: &Panel, a: u32, b: u32) -> Option<Report> {
    assert!(rt; a < b && b < 3);
    let question = Panel::question_of_pair(3, a, b);
    assert!(rt; question < panel.questions());
    assert!(rt; panel.watched(question).has(a) && panel.watched(question).has(b));
    if panel.is_starved(question) {
        None
    } else {
        Some(panel.report(question))
    }
}

/// Compares the report of the question of a pair, unless it was starved.
fn assert_report(rt: &impl Abort, panel: &Panel, a: u32, b: u32, expected: Report) {
    if let Some(told) = report(rt, panel, a, b) {
        assert_eq!(rt; told, expected);
    }
}

/// The clock of process 1 after it received the message that process 0 sent first.
fn received(rt: &impl Abort) -> Clock {
    let mut sent = Clock::new(3);
    assert!(rt; sent.tick(0, 1));
    let mut first = Clock::new(3);
    assert!(rt; first.tick(1, 1));
    assert!(rt; first.len() == 3 && sent.len() == 3);
    first.merge(&sent)
}

/// The snapshot of process 0 precedes that of process 1, and that of process 2 is concurrent with both.
#[test]
fn each_pair_has_its_own_cut(rt: HostRuntime) {
    let mut panel = pairs_of_three(&rt, rt.alloc());
    assert_eq!(rt; panel.questions(), 3);
    take_snapshot(&rt, &mut panel, 0, 0, Clock::new(3));
    take_snapshot(&rt, &mut panel, 1, 0, received(&rt));
    take_snapshot(&rt, &mut panel, 2, 0, Clock::new(3));
    for from in 0..3 {
        take(&rt, &mut panel, from, &Note::Close { count: 1 });
    }
    assert_report(&rt, &panel, 0, 1, Report::Nothing);
    let with_first = GlobalCut::new(&[Some(0), None, Some(0)]);
    assert_report(&rt, &panel, 0, 2, Report::Found(with_first));
    let with_second = GlobalCut::new(&[None, Some(1), Some(0)]);
    assert_report(&rt, &panel, 1, 2, Report::Found(with_second));
}

/// The interval of the first candidate that the question of processes 0 and 1 has of one of them.
fn first_candidate(rt: &impl Abort, panel: &Panel, p: u32) -> Option<u32> {
    assert!(rt; 0 < panel.questions());
    assert!(rt; panel.watched(0).has(p));
    panel.first_candidate(0, p)
}

/// The first snapshot of process 0 is over once that of process 1 is known, and its second is the cut's.
#[test]
fn a_first_candidate_is_dropped(rt: HostRuntime) {
    let mut panel = pairs_of_three(&rt, rt.alloc());
    take_snapshot(&rt, &mut panel, 0, 0, Clock::new(3));
    assert_eq!(rt; first_candidate(&rt, &panel, 0), Some(0));
    assert_eq!(rt; first_candidate(&rt, &panel, 1), None);
    take_snapshot(&rt, &mut panel, 1, 0, received(&rt));
    assert_eq!(rt; first_candidate(&rt, &panel, 0), None);
    assert_eq!(rt; first_candidate(&rt, &panel, 1), Some(1));
    let mut second = Clock::new(3);
    assert!(rt; second.tick(0, 1));
    take_snapshot(&rt, &mut panel, 0, 1, second);
    assert_eq!(rt; first_candidate(&rt, &panel, 0), Some(1));
    let cut = GlobalCut::new(&[Some(1), Some(1), None]);
    assert_report(&rt, &panel, 0, 1, Report::Found(cut));
}

/// Many snapshots of process 0 wait in two questions. One allocation that fails starves one of them at most, and each
/// other finds its cut.
#[test]
fn a_starved_question_leaves_the_others(rt: HostRuntime) {
    let mut panel = pairs_of_three(&rt, rt.alloc());
    let mut clock = Clock::new(3);
    for number in 0..100 {
        take_snapshot(&rt, &mut panel, 0, number, clock);
        assert_eq!(rt; clock.len(), 3);
        assert!(rt; clock.tick(0, 100));
    }
    for p in 1..3 {
        take_snapshot(&rt, &mut panel, p, 0, Clock::new(3));
    }
    let asked = [
        report(&rt, &panel, 0, 1),
        report(&rt, &panel, 0, 2),
        report(&rt, &panel, 1, 2),
    ];
    let found = asked
        .iter()
        .filter(|told| matches!(told, Some(Report::Found(_))))
        .count();
    let starved = asked.iter().filter(|told| told.is_none()).count();
    assert!(rt; starved <= 1);
    assert_eq!(rt; found, 3 - starved);
}
