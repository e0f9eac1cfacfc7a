use crate::tests::replays::Expected::{Made, Refused};
use crate::tests::replays::{Replay, assert_played_by_one_relay};
use wcp_model::Step::{Admit, Check, Close, Observe, Pass, Pull, Put, Recv, Send};
use wcp_model::{Report, Why};

static BACKLOG_REFUSES_SEND: Replay<'static> = Replay {
    name: "backlog_refuses_send",
    steps: &[
        (Observe(0, true), Made),
        (Observe(0, true), Made),
        (Send(0, 1), Refused(Why::Backlog)),
        (Close(0), Refused(Why::Backlog)),
        (Put(0), Made),
        (Send(0, 1), Made),
    ],
    tallies: &[(1, 0), (0, 0)],
};

/// A link has room for one note.
static FULL_LINK: Replay<'static> = Replay {
    name: "full_link",
    steps: &[
        (Observe(0, true), Made),
        (Put(0), Made),
        (Send(0, 1), Made),
        (Observe(0, true), Made),
        (Put(0), Refused(Why::Full)),
        (Admit(0, 0), Made),
        (Put(0), Made),
    ],
    tallies: &[(2, 0), (0, 0)],
};

static EACH_REFUSAL: Replay<'static> = Replay {
    name: "each_refusal",
    steps: &[
        (Send(0, 1), Made),
        (Recv(1, 0), Made),
        (Recv(1, 0), Refused(Why::Gone)),
        (Recv(1, 1), Refused(Why::NoSuch)),
        (Recv(0, 0), Refused(Why::NoSuch)),
        (Send(0, 0), Refused(Why::NoSuch)),
        (Put(0), Refused(Why::Empty)),
        (Admit(0, 0), Refused(Why::Empty)),
        (Admit(1, 0), Refused(Why::NoSuch)),
        (Pull(0), Refused(Why::NoSuch)),
        (Pass(0), Refused(Why::Empty)),
        (Check, Refused(Why::Empty)),
    ],
    tallies: &[(0, 0), (0, 0)],
};

#[test]
fn refused_steps_change_nothing(rt: HostRuntime) {
    for (replay, cap) in [
        (&BACKLOG_REFUSES_SEND, 8),
        (&FULL_LINK, 1),
        (&EACH_REFUSAL, 8),
    ] {
        assert_played_by_one_relay(&rt, rt.alloc(), replay, cap, &Report::Undecided);
    }
}
