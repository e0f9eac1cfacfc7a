use Step::{Close, Observe, Recv, Send};
use std::alloc::Global;
use std::process::Abort;
use wcp_model::{State, Step};
use wcp_plain::{happened_before, is_satisfying_cut, is_true_state};

/// A computation, and what was worked out by hand of it: the pairs of states of which the first
/// happened before the second, the true states, and the satisfying cuts. A state is a process and an
/// interval. What isn't named is denied.
#[derive(Drop)]
struct Example<'a> {
    name: &'a str,
    processes: u32,
    steps: &'a [Step],
    before: &'a [((u32, u64), (u32, u64))],
    true_states: &'a [(u32, u64)],
    satisfying: &'a [&'a [u64]],
}

/// How many intervals of each process are tried: one more than a process of an example has at most.
const TRIED: u64 = 4;

fn state((process, interval): (u32, u64)) -> State {
    State { process, interval }
}

/// Asks whether a state is true.
fn check_state(rt: &impl Abort, example: &Example<'_>, of: (u32, u64)) {
    let is_true = example.true_states.contains(&of);
    let answer = is_true_state(example.steps, state(of));
    assert_eq!(rt; answer, is_true, "{}: {of:?}", example.name);
}

/// Asks whether a state happened before another.
fn check_pair(
    rt: &impl Abort,
    alloc: Global,
    example: &Example<'_>,
    from: (u32, u64),
    to: (u32, u64),
) {
    let is_before = example.before.contains(&(from, to));
    let answer = happened_before(alloc, example.steps, state(from), state(to)).expect(rt, "memory");
    assert_eq!(rt; answer, is_before, "{}: {from:?} {to:?}", example.name);
}

/// Asks of a state whether it is true, and which others it happened before.
fn check_from(rt: &impl Abort, alloc: Global, example: &Example<'_>, from: (u32, u64)) {
    check_state(rt, example, from);
    for process in 0..example.processes {
        for interval in 0..TRIED {
            check_pair(rt, alloc, example, from, (process, interval));
        }
    }
}

fn check_states(rt: &impl Abort, alloc: Global, example: &Example<'_>) {
    for process in 0..example.processes {
        for interval in 0..TRIED {
            check_from(rt, alloc, example, (process, interval));
        }
    }
}

/// Whether a cut is named as a satisfying one.
fn is_named(example: &Example<'_>, cut: &[u64]) -> bool {
    for satisfying in example.satisfying {
        if *satisfying == cut {
            return true;
        }
    }
    false
}

/// Asks whether a cut of three processes, or of the first of them, is a satisfying one.
fn check_cut(rt: &impl Abort, alloc: Global, example: &Example<'_>, intervals: [u64; 3]) {
    let count = example.processes.min(3) as usize;
    let is_satisfying = is_named(example, &intervals[..count]);
    let cut = intervals.map(Some);
    let answer = is_satisfying_cut(alloc, example.steps, &cut[..count]).expect(rt, "memory");
    assert_eq!(rt; answer, is_satisfying, "{}: {intervals:?}", example.name);
}

fn check_cuts(rt: &impl Abort, alloc: Global, example: &Example<'_>) {
    for code in 0..TRIED * TRIED * TRIED {
        let intervals = [code % TRIED, code / TRIED % TRIED, code / TRIED / TRIED];
        check_cut(rt, alloc, example, intervals);
    }
}

static EXAMPLES: [Example<'static>; 5] = [
    Example {
        name: "only_pair_ordered",
        processes: 2,
        steps: &[
            Observe(0, true),
            Send(0, 1),
            Recv(1, 0),
            Observe(1, true),
            Close(0),
            Close(1),
        ],
        before: &[((0, 0), (0, 1)), ((0, 0), (1, 1)), ((1, 0), (1, 1))],
        true_states: &[(0, 0), (1, 1)],
        satisfying: &[],
    },
    Example {
        name: "true_again_after_send",
        processes: 2,
        steps: &[
            Observe(0, true),
            Send(0, 1),
            Observe(0, true),
            Recv(1, 0),
            Observe(1, true),
            Close(0),
            Close(1),
        ],
        before: &[((0, 0), (0, 1)), ((0, 0), (1, 1)), ((1, 0), (1, 1))],
        true_states: &[(0, 0), (0, 1), (1, 1)],
        satisfying: &[&[1, 1]],
    },
    Example {
        name: "order_through_third",
        processes: 3,
        steps: &[
            Observe(0, true),
            Send(0, 1),
            Observe(1, true),
            Recv(1, 0),
            Send(1, 2),
            Recv(2, 1),
            Observe(2, true),
            Close(0),
            Close(1),
            Close(2),
        ],
        before: &[
            ((0, 0), (0, 1)),
            ((0, 0), (1, 1)),
            ((0, 0), (1, 2)),
            ((0, 0), (2, 1)),
            ((1, 0), (1, 1)),
            ((1, 0), (1, 2)),
            ((1, 0), (2, 1)),
            ((1, 1), (1, 2)),
            ((1, 1), (2, 1)),
            ((2, 0), (2, 1)),
        ],
        true_states: &[(0, 0), (1, 0), (2, 1)],
        satisfying: &[],
    },
    Example {
        name: "least_of_two_cuts",
        processes: 2,
        steps: &[
            Observe(0, true),
            Send(0, 1),
            Observe(0, true),
            Observe(1, true),
            Recv(1, 0),
            Close(0),
            Close(1),
        ],
        before: &[((0, 0), (0, 1)), ((0, 0), (1, 1)), ((1, 0), (1, 1))],
        true_states: &[(0, 0), (0, 1), (1, 0)],
        satisfying: &[&[0, 0], &[1, 0]],
    },
    Example {
        name: "messages_overtake",
        processes: 2,
        steps: &[
            Send(0, 1),
            Observe(0, true),
            Send(0, 1),
            Recv(1, 1),
            Observe(1, true),
            Recv(1, 0),
            Close(0),
            Close(1),
        ],
        before: &[
            ((0, 0), (0, 1)),
            ((0, 0), (0, 2)),
            ((0, 0), (1, 1)),
            ((0, 0), (1, 2)),
            ((0, 1), (0, 2)),
            ((0, 1), (1, 1)),
            ((0, 1), (1, 2)),
            ((1, 0), (1, 1)),
            ((1, 0), (1, 2)),
            ((1, 1), (1, 2)),
        ],
        true_states: &[(0, 1), (1, 1)],
        satisfying: &[],
    },
];

#[test]
fn answers_are_those_worked_out_by_hand(rt: HostRuntime) {
    for example in &EXAMPLES {
        check_states(&rt, rt.alloc(), example);
        check_cuts(&rt, rt.alloc(), example);
    }
}
