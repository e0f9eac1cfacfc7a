//! Records and a log that are asked for again where memory ran out.
use std::alloc::Global;
use std::process::Abort;
use std::sync::{Mutex, Wait};
use std::thread::Threads;
use wullaphi::{
    Book, LentProbe, Loan, Plan, Process, WatchFault, WatchOutcome, plain_plan, watch_processes,
};
use wullaphi_record::{Record, RecordFault, recorded_log};

/// What each process does.
const DEEDS: [&str; 3] = ["asks", "waits", "leaves"];

/// A process that keeps its last two events. It sends a message that nobody receives before each.
#[derive(Drop)]
struct Sender {
    alloc: Global,
    name: &'static str,
    to: u32,
}

impl Process for Sender {
    type Shared = ();

    type Answer = Result<Record, RecordFault>;

    fn run<L: Loan, R: Wait>(
        self,
        _rt: &R,
        probe: &mut LentProbe<L>,
        _shared: &(),
    ) -> Result<Record, RecordFault> {
        let mut record = self.begin(probe)?;
        for deed in DEEDS {
            let _ = probe.stamp(self.to, ());
            record_again(&mut record, probe, deed)?;
        }
        Ok(record)
    }
}

impl Sender {
    /// Its record. Where memory runs out, asking again makes it.
    fn begin<L: Loan>(&self, probe: &LentProbe<L>) -> Result<Record, RecordFault> {
        match Record::of_last(self.alloc, probe, self.name, 2) {
            Ok(record) => Ok(record),
            Err(_) => Ok(Record::of_last(self.alloc, probe, self.name, 2)?),
        }
    }
}

/// Records a text. Where memory runs out, asking again does it.
fn record_again<L: Loan>(
    record: &mut Record,
    probe: &LentProbe<L>,
    text: &str,
) -> Result<(), RecordFault> {
    match record.event(probe, text) {
        Err(RecordFault::Memory) => record.event(probe, text),
        recorded => recorded,
    }
}

/// Watches two of them.
fn watch<R: Threads + Wait + Sync>(
    rt: &R,
    alloc: Global,
    plan: &Plan,
    book: &Mutex<Book>,
) -> Result<WatchOutcome<Result<Record, RecordFault>>, WatchFault> {
    let first = Sender {
        alloc,
        name: "ann",
        to: 1,
    };
    let second = Sender {
        alloc,
        name: "ben",
        to: 0,
    };
    let senders = vec![in alloc; first, second]?;
    watch_processes(rt, alloc, plan, 1, senders, &(), book)
}

/// Watches them. Where memory runs out, or no thread can be made, asking again does it.
fn watch_again<R: Threads + Wait + Sync>(
    rt: &R,
    alloc: Global,
    plan: &Plan,
    book: &Mutex<Book>,
) -> Result<WatchOutcome<Result<Record, RecordFault>>, WatchFault> {
    match watch(rt, alloc, plan, book) {
        Err(WatchFault::Memory | WatchFault::Spawn) => watch(rt, alloc, plan, book),
        ended => ended,
    }
}

/// A plan of two processes. Where memory runs out, asking again makes it.
fn plan_of_two(rt: &impl Abort, alloc: Global) -> Plan {
    let plan = plain_plan(alloc, 2, 8, 4).or_else(|_| plain_plan(alloc, 2, 8, 4));
    plan.expect(rt, "memory")
}

/// The two records of a watch, with room that is asked for again where memory ran out.
fn records_of(
    rt: &impl Abort,
    alloc: Global,
    answers: Vec<Result<Record, RecordFault>>,
) -> Vec<Record> {
    let room = Vec::with_capacity(alloc, 2).or_else(|_| Vec::with_capacity(alloc, 2));
    let mut records = room.expect(rt, "memory");
    for answer in answers {
        records
            .push(answer.expect(rt, "a record"))
            .expect(rt, "memory");
    }
    records
}

/// The log of these records. Where memory runs out, asking again makes it.
fn log_again(alloc: Global, records: &[Record]) -> Result<String, RecordFault> {
    match recorded_log(alloc, records) {
        Err(RecordFault::Memory) => recorded_log(alloc, records),
        made => made,
    }
}

#[test]
fn a_log_that_was_refused_memory_is_recorded_again(rt: HostRuntime) {
    let plan = plan_of_two(&rt, rt.alloc());
    let book = Mutex::new(Book::new(2));
    let watched = watch_again(&rt, rt.alloc(), &plan, &book).expect(&rt, "a watch");
    let records = records_of(&rt, rt.alloc(), watched.answers);
    let log = log_again(rt.alloc(), &records).expect(&rt, "a log");
    assert_eq!(rt; log.as_str(), LOG);
}

const LOG: &str = r#"{"host":"ann","clock":{"ann":2,"ben":0},"event":"waits"}
{"host":"ann","clock":{"ann":3,"ben":0},"event":"leaves"}
{"host":"ben","clock":{"ann":0,"ben":2},"event":"waits"}
{"host":"ben","clock":{"ann":0,"ben":3},"event":"leaves"}
"#;
