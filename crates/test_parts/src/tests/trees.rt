use crate::tests::replays::Expected::{Made, Refused, TookClose, TookSnap};
use crate::tests::replays::{Replay, assert_played};
use std::alloc::Global;
use std::process::Abort;
use wcp_model::Step::{Admit, Check, Close, Observe, Pass, Pull, Put, Recv, Send};
use wcp_model::{GlobalCut, Parent, Plan, Report, Watched, Why};

/// A list of these. Where memory runs out, asking again makes it.
fn listed<T: Copy>(rt: &impl Abort, alloc: Global, items: &[T]) -> Vec<T> {
    match Vec::from_slice(alloc, items) {
        Ok(list) => list,
        Err(_) => Vec::from_slice(alloc, items).expect(rt, "memory"),
    }
}

/// Two processes, each with a leaf relay of its own, and an inner relay above both leaves.
fn tree(rt: &impl Abort, alloc: Global, cap: u32, hold: u32) -> Plan {
    let parents = [Parent::Root, Parent::Relay(0), Parent::Relay(0)];
    let parents = listed(rt, alloc, &parents);
    let attach = listed(rt, alloc, &[Some(1), Some(2)]);
    Plan::new(2, cap, hold, parents, attach, Watched::all(2))
}

/// The true states are 0, 1 and 2 of process 0 and 1 and 2 of process 1. State 0 of process 0
/// happened before both of process 1; the two states 1 are concurrent.
static LEAST_CUT: Replay<'static> = Replay {
    name: "least_cut",
    steps: &[
        (Observe(0, true), Made),
        (Observe(0, true), Made),
        (Put(0), Made),
        (Send(0, 1), Made),
        (Recv(1, 0), Made),
        (Observe(1, true), Made),
        (Put(1), Made),
        (Observe(0, false), Made),
        (Observe(0, true), Made),
        (Put(0), Made),
        (Send(1, 0), Made),
        (Observe(1, true), Made),
        (Put(1), Made),
        (Recv(0, 1), Made),
        (Observe(0, true), Made),
        (Admit(1, 0), Made),
        (Admit(2, 1), Made),
        (Pass(2), Made),
        (Pass(1), Made),
        (Pull(0), Made),
        (Pull(0), Made),
        (Pass(0), Made),
        (Check, TookSnap(1, 0, &[1, 1])),
        (Pass(0), Made),
        (Put(0), Made),
        (Close(0), Made),
        (Put(0), Made),
        (Close(1), Made),
        (Put(1), Made),
        (Admit(1, 0), Made),
        (Admit(1, 0), Made),
        (Admit(1, 0), Made),
        (Pass(1), Made),
        (Pass(1), Made),
        (Pass(1), Made),
        (Admit(2, 1), Made),
        (Admit(2, 1), Made),
        (Pass(2), Made),
        (Pass(2), Made),
        (Pull(0), Made),
        (Pull(0), Made),
        (Pull(0), Made),
        (Pull(0), Made),
        (Pull(0), Refused(Why::Full)),
        (Pass(0), Made),
        (Pass(0), Made),
        (Pass(0), Made),
        (Pass(0), Made),
        (Pull(0), Made),
        (Pass(0), Made),
        (Check, TookSnap(0, 0, &[0, 0])),
        (Check, TookSnap(0, 1, &[1, 0])),
        (Check, TookSnap(0, 2, &[2, 2])),
        (Check, TookClose(0, 3)),
        (Check, TookSnap(1, 1, &[1, 2])),
        (Check, TookClose(1, 2)),
        (Check, Refused(Why::Empty)),
    ],
    tallies: &[(3, 3), (2, 2)],
};

/// The only pair of true states is ordered by the message.
static ORDERED_PAIR: Replay<'static> = Replay {
    name: "ordered_pair",
    steps: &[
        (Observe(0, true), Made),
        (Put(0), Made),
        (Send(0, 1), Made),
        (Recv(1, 0), Made),
        (Observe(1, true), Made),
        (Put(1), Made),
        (Close(0), Made),
        (Put(0), Made),
        (Close(1), Made),
        (Put(1), Made),
        (Admit(1, 0), Made),
        (Admit(2, 1), Made),
        (Admit(2, 1), Made),
        (Pass(2), Made),
        (Admit(1, 0), Made),
        (Pass(1), Made),
        (Pull(0), Made),
        (Pass(2), Made),
        (Pass(1), Made),
        (Pull(0), Made),
        (Pull(0), Made),
        (Pull(0), Made),
        (Pass(0), Made),
        (Pass(0), Made),
        (Pass(0), Made),
        (Pass(0), Made),
        (Check, TookSnap(1, 0, &[1, 1])),
        (Check, TookSnap(0, 0, &[0, 0])),
        (Check, TookClose(1, 1)),
        (Check, TookClose(0, 1)),
    ],
    tallies: &[(1, 1), (1, 1)],
};

/// Each place of the tree has room for one item.
static EACH_MOVE_REFUSED: Replay<'static> = Replay {
    name: "each_move_refused",
    steps: &[
        (Pull(1), Refused(Why::NoSuch)),
        (Pull(3), Refused(Why::NoSuch)),
        (Pull(0), Refused(Why::Empty)),
        (Pass(3), Refused(Why::NoSuch)),
        (Pass(0), Refused(Why::Empty)),
        (Pass(1), Refused(Why::Empty)),
        (Admit(2, 0), Refused(Why::NoSuch)),
        (Admit(0, 0), Refused(Why::NoSuch)),
        (Admit(3, 0), Refused(Why::NoSuch)),
        (Admit(1, 2), Refused(Why::NoSuch)),
        (Admit(1, 0), Refused(Why::Empty)),
        (Check, Refused(Why::Empty)),
        (Put(2), Refused(Why::NoSuch)),
        (Put(0), Refused(Why::Empty)),
        (Observe(0, true), Made),
        (Put(0), Made),
        (Send(0, 1), Made),
        (Observe(0, true), Made),
        (Put(0), Refused(Why::Full)),
        (Admit(1, 0), Made),
        (Admit(1, 0), Refused(Why::Empty)),
        (Put(0), Made),
        (Admit(1, 0), Refused(Why::Full)),
        (Pass(1), Made),
        (Admit(1, 0), Made),
        (Pass(1), Refused(Why::Full)),
        (Pull(0), Made),
        (Pull(0), Refused(Why::Empty)),
        (Pass(1), Made),
        (Pull(0), Refused(Why::Full)),
        (Pass(0), Made),
        (Pull(0), Made),
        (Pass(0), Refused(Why::Full)),
        (Check, TookSnap(0, 0, &[0, 0])),
        (Pass(0), Made),
        (Check, TookSnap(0, 1, &[1, 0])),
        (Check, Refused(Why::Empty)),
    ],
    tallies: &[(2, 2), (0, 0)],
};

#[test]
fn items_go_through_a_tree_of_relays(rt: HostRuntime) {
    let least = Report::Found(GlobalCut::new(&[Some(1), Some(1)]));
    let wide = tree(&rt, rt.alloc(), 8, 4);
    assert_played(&rt, rt.alloc(), &wide, &LEAST_CUT, &least);
    assert_played(&rt, rt.alloc(), &wide, &ORDERED_PAIR, &Report::Nothing);
    let narrow = tree(&rt, rt.alloc(), 1, 1);
    assert_played(
        &rt,
        rt.alloc(),
        &narrow,
        &EACH_MOVE_REFUSED,
        &Report::Undecided,
    );
}
