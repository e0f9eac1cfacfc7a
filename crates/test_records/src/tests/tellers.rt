//! Processes that record what they do, and the log of a watch of them.
use crossbeam_channel::{Receiver, Sender, bounded};
use std::alloc::Global;
use std::process::Abort;
use std::sync::{Mutex, Wait};
use std::thread::Threads;
use wullaphi::{Book, LentProbe, Loan, Process, Stamped, plain_plan, watch_processes};
use wullaphi_record::{Record, RecordFault, recorded_log};

/// A step of a process.
#[derive(Clone, Copy)]
pub enum Step {
    /// Records this.
    Does(&'static str),
    /// Records a text of so many bytes.
    DoesLong(usize),
    /// Sends to this process.
    Send(u32),
    /// Receives what was sent to it first.
    Recv,
}

/// The record that a process begins with.
#[derive(Drop)]
pub enum Begun {
    All(String),
    LastOnes(String, usize),
    /// It goes on with this one.
    With(Record),
}

/// A process that makes these steps. What all share is the channel to each process. It answers with its record, and
/// with the last fault of it.
#[derive(Drop)]
pub struct Teller {
    pub alloc: Global,
    pub begun: Begun,
    pub steps: Vec<Step>,
}

/// The most processes of a watch.
const MOST: u32 = 16;

/// The channel to a process.
type Channel = (Sender<Stamped<()>>, Receiver<Stamped<()>>);

/// What a process answers.
#[derive(Drop)]
pub struct Told {
    record: Record,
    fault: Option<RecordFault>,
}

impl Process for Teller {
    type Shared = Vec<Channel>;

    type Answer = Option<Told>;

    fn run<L: Loan, R: Wait>(
        self,
        rt: &R,
        probe: &mut LentProbe<L>,
        channels: &Vec<Channel>,
    ) -> Option<Told> {
        let Teller {
            alloc,
            begun,
            steps,
        } = self;
        let mut told = Told {
            record: begun.record(alloc, probe)?,
            fault: None,
        };
        for step in steps.iter() {
            told.make(rt, alloc, probe, channels, *step)?;
        }
        Some(told)
    }
}

impl Begun {
    /// The record.
    fn record<L: Loan>(self, alloc: Global, probe: &LentProbe<L>) -> Option<Record> {
        match self {
            Begun::All(name) => Record::new(alloc, probe, name.as_str()).ok(),
            Begun::LastOnes(name, most) => {
                Record::of_last(alloc, probe, name.as_str(), most).ok()
            }
            Begun::With(record) => Some(record),
        }
    }
}

impl Told {
    /// Makes a step, unless memory runs out or a message can't be passed.
    fn make<L: Loan, R: Wait>(
        &mut self,
        rt: &R,
        alloc: Global,
        probe: &mut LentProbe<L>,
        channels: &[Channel],
        step: Step,
    ) -> Option<()> {
        match step {
            Step::Does(text) => self.record_text(probe, text),
            Step::DoesLong(count) => {
                self.record_text(probe, "x".repeat(alloc, count).ok()?.as_str());
            }
            Step::Send(to) => {
                let (channel, _) = channels.get(to as usize)?;
                probe.send(rt, channel, to, ()).ok()?;
            }
            Step::Recv => {
                let (_, channel) = channels.get(probe.id() as usize)?;
                probe.recv(rt, channel).ok()?;
            }
        }
        Some(())
    }

    /// Records a text, and keeps the fault.
    fn record_text<L: Loan>(&mut self, probe: &LentProbe<L>, text: &str) {
        if let Err(fault) = self.record.event(probe, text) {
            self.fault = Some(fault);
        }
    }
}

/// What the processes of a watch have answered.
#[derive(Drop)]
pub struct Run {
    pub records: Vec<Record>,
    pub faults: Vec<Option<RecordFault>>,
}

/// A process of this name that keeps all it records.
pub fn named(rt: &impl Abort, alloc: Global, name: &str, steps: &[Step]) -> Teller {
    let name = String::from_str(alloc, name).expect(rt, "memory");
    begun_with(rt, alloc, Begun::All(name), steps)
}

/// A process that begins with this record.
pub fn begun_with(rt: &impl Abort, alloc: Global, begun: Begun, steps: &[Step]) -> Teller {
    let steps = steps.to_vec(alloc).expect(rt, "memory");
    Teller {
        alloc,
        begun,
        steps,
    }
}

/// Watches these processes.
pub fn run_all<R: Threads + Wait + Sync + Abort>(
    rt: &R,
    alloc: Global,
    tellers: Vec<Teller>,
) -> Run {
    let count = u32::try_from(tellers.len()).expect(rt, "few processes");
    let mut channels = Vec::new(alloc);
    for _ in 0..count {
        let channel = bounded(alloc, 4).expect(rt, "memory");
        channels.push(channel).expect(rt, "memory");
    }
    let plan = plain_plan(alloc, count, 8, 4).expect(rt, "memory");
    assert!(rt; 0 < count && count <= MOST);
    let book = Mutex::new(Book::new(count));
    let Ok(watched) = watch_processes(rt, alloc, &plan, 1, tellers, &channels, &book) else {
        panic!(rt; "no answer")
    };
    run_of(rt, alloc, watched.answers)
}

/// Two processes that are watched.
pub fn run_two<R: Threads + Wait + Sync + Abort>(
    rt: &R,
    alloc: Global,
    first: Teller,
    second: Teller,
) -> Run {
    run_all(
        rt,
        alloc,
        vec![in alloc; first, second].expect(rt, "memory"),
    )
}

/// What these answers say.
fn run_of(rt: &impl Abort, alloc: Global, answers: Vec<Option<Told>>) -> Run {
    let mut run = Run {
        records: Vec::new(alloc),
        faults: Vec::new(alloc),
    };
    for answer in answers {
        let told = answer.expect(rt, "a process that has made its steps");
        run.records.push(told.record).expect(rt, "memory");
        run.faults.push(told.fault).expect(rt, "memory");
    }
    run
}

/// The log of these records is this one.
pub fn assert_log(rt: &impl Abort, alloc: Global, records: &[Record], log: &str) {
    let made = recorded_log(alloc, records).expect(rt, "a log");
    assert_eq!(rt; made.as_str(), log);
}
