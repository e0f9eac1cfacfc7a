use crate::tests::replays::Expected::{Made, Refused, TookClose, TookSnap};
use crate::tests::replays::{Replay, assert_played_by_one_relay};
use std::process::Abort;
use wcp_model::Step::{Admit, Check, Close, Observe, Pass, Put, Recv, Send};
use wcp_model::{GlobalCut, Report, Why};

static CLOCK_TAKES_EVERY_COMPONENT: Replay<'static> = Replay {
    name: "clock_takes_every_component",
    steps: &[
        (Observe(0, true), Made),
        (Put(0), Made),
        (Send(0, 1), Made),
        (Recv(1, 0), Made),
        (Send(1, 2), Made),
        (Recv(2, 1), Made),
        (Observe(2, true), Made),
        (Put(2), Made),
        (Admit(0, 2), Made),
        (Pass(0), Made),
        (Check, TookSnap(2, 0, &[1, 2, 1])),
    ],
    tallies: &[(1, 0), (0, 0), (1, 1)],
};

static CLOSE_GOES_THE_SAME_WAY: Replay<'static> = Replay {
    name: "close_goes_the_same_way",
    steps: &[
        (Observe(0, true), Made),
        (Put(0), Made),
        (Close(0), Made),
        (Observe(0, true), Refused(Why::Closed)),
        (Close(0), Refused(Why::Closed)),
        (Put(0), Made),
        (Admit(0, 0), Made),
        (Admit(0, 0), Made),
        (Pass(0), Made),
        (Pass(0), Made),
        (Check, TookSnap(0, 0, &[0])),
        (Check, TookClose(0, 1)),
    ],
    tallies: &[(1, 1)],
};

static MESSAGES_OVERTAKE: Replay<'static> = Replay {
    name: "messages_overtake",
    steps: &[
        (Send(0, 1), Made),
        (Observe(0, true), Made),
        (Put(0), Made),
        (Send(0, 1), Made),
        (Recv(1, 1), Made),
        (Observe(1, true), Made),
        (Put(1), Made),
        (Recv(1, 0), Made),
        (Close(0), Made),
        (Put(0), Made),
        (Close(1), Made),
        (Put(1), Made),
        (Admit(0, 0), Made),
        (Admit(0, 0), Made),
        (Admit(0, 1), Made),
        (Admit(0, 1), Made),
        (Pass(0), Made),
        (Pass(0), Made),
        (Pass(0), Made),
        (Pass(0), Made),
        (Check, TookSnap(0, 0, &[1, 0])),
        (Check, TookClose(0, 1)),
        (Check, TookSnap(1, 0, &[2, 1])),
        (Check, TookClose(1, 1)),
    ],
    tallies: &[(1, 1), (1, 1)],
};

/// The first snapshots of the two processes make the least satisfying cut, which is lost where an item that came later
/// overtakes them and they are dropped.
static NEWEST_FIRST_HOLD_LOSES_CUT: Replay<'static> = Replay {
    name: "newest_first_hold_loses_cut",
    steps: &[
        (Observe(0, true), Made),
        (Put(0), Made),
        (Observe(1, true), Made),
        (Put(1), Made),
        (Send(1, 0), Made),
        (Recv(0, 0), Made),
        (Observe(0, true), Made),
        (Put(0), Made),
        (Admit(0, 0), Made),
        (Admit(0, 1), Made),
        (Admit(0, 0), Made),
        (Pass(0), Made),
        (Pass(0), Made),
        (Pass(0), Made),
        (Check, TookSnap(0, 0, &[0, 0])),
        (Check, TookSnap(1, 0, &[0, 0])),
        (Check, TookSnap(0, 1, &[1, 1])),
    ],
    tallies: &[(2, 2), (1, 1)],
};

/// The first steps of a replay, and the tallies after them.
fn beginning<'a>(
    rt: &impl Abort,
    name: &'a str,
    replay: &Replay<'a>,
    count: usize,
    tallies: &'a [(u64, u64)],
) -> Replay<'a> {
    assert!(rt; count <= replay.steps.len());
    Replay {
        name,
        steps: &replay.steps[..count],
        tallies,
    }
}

#[test]
fn items_are_taken_in_the_order_of_their_emission(rt: HostRuntime) {
    let first = Report::Found(GlobalCut::new(&[Some(0)]));
    for (replay, report) in [
        (&CLOCK_TAKES_EVERY_COMPONENT, Report::Undecided),
        (&CLOSE_GOES_THE_SAME_WAY, first),
        (&MESSAGES_OVERTAKE, Report::Nothing),
    ] {
        assert_played_by_one_relay(&rt, rt.alloc(), replay, 8, &report);
    }
}

#[test]
fn the_least_cut_is_found_once_all_is_taken(rt: HostRuntime) {
    let both = Report::Found(GlobalCut::new(&[Some(0), Some(0)]));
    let whole = &NEWEST_FIRST_HOLD_LOSES_CUT;
    assert_played_by_one_relay(&rt, rt.alloc(), whole, 8, &both);
    let name = "undecided_before_all_taken";
    let first = beginning(&rt, name, whole, 15, &[(2, 1), (1, 0)]);
    assert_played_by_one_relay(&rt, rt.alloc(), &first, 8, &Report::Undecided);
}
