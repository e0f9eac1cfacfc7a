//! Messages through channels of a watched program: what they order, what goes on behind them, and what a fault hands
//! back.
use crossbeam_channel::{Receiver, Sender, bounded};
use std::alloc::Global;
use std::process::Abort;
use std::sync::{Mutex, Wait};
use std::thread::Threads;
use wullaphi::{
    Book, ChannelFault, LentProbe, Loan, Process, Refusal, Report, Stamped, Watched, plain_plan,
    watch_processes,
};

/// What is sent, as the n-th message of a process.
const FIRST: u32 = 7;

/// A step of a process.
#[derive(Clone, Copy)]
enum Step {
    /// Its condition holds here.
    IsTrue,
    /// Its condition holds from here on, until it is let go.
    Hold,
    LetGo,
    /// Sends to this process.
    Send(u32),
    /// Receives what was sent first.
    Recv,
}

/// A process that makes these steps, with its ends of two channels. A step without its end is passed over.
#[derive(Drop)]
struct Correspondent {
    steps: Vec<Step>,
    outbox: Option<Sender<Stamped<u32>>>,
    inbox: Option<Receiver<Stamped<u32>>>,
}

/// How a process ended.
#[derive(Clone, Copy, Debug, PartialEq, Eq)]
enum Told {
    Done,
    /// It received something else than what was sent.
    WrongValue,
    SendRefused(Refusal, u32),
    ReceiveRefused(Refusal, u32),
    NoReceiver(u32),
    NoSender,
    Memory,
}

/// What a fault says, and of what it hands back the value, or for whom it is.
fn told_of(fault: ChannelFault<u32>) -> Told {
    match fault {
        ChannelFault::Send { refusal, value } => Told::SendRefused(refusal, value),
        ChannelFault::Receive { refusal, message } => Told::ReceiveRefused(refusal, message.to()),
        ChannelFault::NoReceiver(message) => Told::NoReceiver(message.to()),
        ChannelFault::NoSender => Told::NoSender,
        ChannelFault::Memory(_) => Told::Memory,
    }
}

impl Process for Correspondent {
    type Shared = ();

    type Answer = Told;

    fn run<L: Loan, R: Wait>(self, rt: &R, probe: &mut LentProbe<L>, _shared: &()) -> Told {
        for step in self.steps.iter() {
            match self.make(rt, probe, *step) {
                Ok(true) => {}
                Ok(false) => return Told::WrongValue,
                Err(fault) => return told_of(fault),
            }
        }
        Told::Done
    }
}

impl Correspondent {
    /// Makes a step: whether what it received, if it did, is what was sent.
    fn make<L: Loan, R: Wait>(
        &self,
        rt: &R,
        probe: &mut LentProbe<L>,
        step: Step,
    ) -> Result<bool, ChannelFault<u32>> {
        match step {
            Step::IsTrue => probe.observe(rt, true),
            Step::Hold => probe.hold(rt),
            Step::LetGo => probe.let_go(),
            Step::Send(to) => {
                if let Some(outbox) = &self.outbox {
                    probe.send(rt, outbox, to, FIRST)?;
                }
            }
            Step::Recv => {
                if let Some(inbox) = &self.inbox {
                    return Ok(probe.recv(rt, inbox)? == FIRST);
                }
            }
        }
        Ok(true)
    }
}

/// Which ends of their channels the first two processes have.
#[derive(Clone, Copy, PartialEq, Eq)]
enum Ends {
    /// All.
    All,
    /// The second has none, so nobody receives from the first and nobody sends to it.
    FirstAlone,
}

/// The report of a watch of the first two of three processes, and how those two ended. The third does nothing.
fn outcome<R: Threads + Wait + Sync + Abort>(
    rt: &R,
    alloc: Global,
    ends: Ends,
    first: &[Step],
    second: &[Step],
) -> (Report, Told, Told) {
    let (to_second, at_second) = bounded(alloc, 1).expect(rt, "memory");
    let (to_first, at_first) = bounded(alloc, 1).expect(rt, "memory");
    let has_both = ends == Ends::All;
    let processes = vec![in alloc;
        Correspondent {
            steps: first.to_vec(alloc).expect(rt, "memory"),
            outbox: Some(to_second),
            inbox: Some(at_first),
        },
        Correspondent {
            steps: second.to_vec(alloc).expect(rt, "memory"),
            outbox: has_both.then_some(to_first),
            inbox: has_both.then_some(at_second),
        },
        Correspondent {
            steps: Vec::new(alloc),
            outbox: None,
            inbox: None
        },
    ]
    .expect(rt, "memory");
    let mut plan = plain_plan(alloc, 3, 8, 4).expect(rt, "memory");
    plan.watched = Watched::pair(0, 1);
    let book = Mutex::new(Book::new(3));
    let Ok(watched) = watch_processes(rt, alloc, &plan, 1, processes, &(), &book) else {
        panic!(rt; "no answer")
    };
    let told = watched.answers;
    assert!(rt; told.len() == 3);
    (watched.outcome.report, told[0], told[1])
}

/// Whether the two are found in each of so many watches, in which both make all their steps.
fn assert_found<R: Threads + Wait + Sync + Abort>(
    rt: &R,
    alloc: Global,
    first: &[Step],
    second: &[Step],
    found: bool,
) {
    for _ in 0..100 {
        let (report, one, other) = outcome(rt, alloc, Ends::All, first, second);
        assert!(rt; one == Told::Done);
        assert!(rt; other == Told::Done);
        assert!(rt; (report != Report::Nothing) == found);
    }
}

#[test]
fn a_message_orders_who_sends_before_who_receives(rt: HostRuntime) {
    let receives = [Step::Recv, Step::IsTrue];
    assert_found(
        &rt,
        rt.alloc(),
        &[Step::IsTrue, Step::Send(1)],
        &receives,
        false,
    );
    assert_found(
        &rt,
        rt.alloc(),
        &[Step::Send(1), Step::IsTrue],
        &receives,
        true,
    );
}

#[test]
fn a_condition_that_lasts_goes_on_behind_a_send(rt: HostRuntime) {
    let answers = [Step::Recv, Step::IsTrue, Step::Send(0)];
    let lasts = [Step::Hold, Step::Send(1), Step::Recv, Step::LetGo];
    let begins = [Step::IsTrue, Step::Send(1), Step::Recv];
    assert_found(&rt, rt.alloc(), &lasts, &answers, true);
    assert_found(&rt, rt.alloc(), &begins, &answers, false);
}

#[test]
fn a_condition_that_lasts_goes_on_behind_a_receive(rt: HostRuntime) {
    let sends = [Step::Send(1), Step::Recv, Step::IsTrue];
    let lasts = [Step::Hold, Step::Recv, Step::Send(0)];
    let begins = [Step::IsTrue, Step::Recv, Step::Send(0)];
    assert_found(&rt, rt.alloc(), &sends, &lasts, true);
    assert_found(&rt, rt.alloc(), &sends, &begins, false);
}

#[test]
fn a_refused_send_hands_its_value_back(rt: HostRuntime) {
    let (_, told, _) = outcome(&rt, rt.alloc(), Ends::All, &[Step::Send(0)], &[]);
    assert!(rt; told == Told::SendRefused(Refusal::NoSuch, FIRST));
}

#[test]
fn a_message_for_another_process_is_handed_back(rt: HostRuntime) {
    let (_, sent, told) = outcome(&rt, rt.alloc(), Ends::All, &[Step::Send(2)], &[Step::Recv]);
    assert!(rt; sent == Told::Done);
    assert!(rt; told == Told::ReceiveRefused(Refusal::NotMine, 2));
}

#[test]
fn a_message_that_nobody_takes_is_handed_back(rt: HostRuntime) {
    let (_, told, _) = outcome(&rt, rt.alloc(), Ends::FirstAlone, &[Step::Send(1)], &[]);
    assert!(rt; told == Told::NoReceiver(1));
}

#[test]
fn nobody_waits_for_a_message_that_nobody_sends(rt: HostRuntime) {
    let (_, told, _) = outcome(&rt, rt.alloc(), Ends::FirstAlone, &[Step::Recv], &[]);
    assert!(rt; told == Told::NoSender);
}
