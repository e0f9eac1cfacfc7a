//! Processes that come to a meeting, or stay away.
use crossbeam_channel::{Receiver, Sender};
use std::alloc::Global;
use std::process::Abort;
use std::sync::{Mutex, Wait};
use std::thread::Threads;
use std::time::{Clock, Duration};
use wullaphi::{
    Attendance, Book, LentProbe, Loan, LosableProcess, Meeting, Report, Stamped, WatchFault,
    WatchOutcome, Watched, plain_plan, watch_processes,
};

/// What the processes of a watch share.
#[derive(Drop)]
pub struct Room {
    meeting: Meeting,
    plain: Mutex<u32>,
    patience: Duration,
}

/// A process, with a handle of its own. It answers whether all have met, or nothing where it is lost.
#[derive(Drop)]
pub struct Guest<H> {
    part: Part,
    handle: H,
}

#[derive(Drop)]
pub enum Part {
    /// Comes to its place.
    Comes,
    /// Comes to its place under a lock of which the watch sees nothing.
    ComesUnderLock,
    /// Comes to its place, goes away, and comes again.
    ComesTwice,
    /// Comes to its place, and sends once it goes on.
    ComesAndSends(Sender<Stamped<u32>>),
    /// Is true, sends, stays true, and comes to its place.
    Sends(Sender<Stamped<u32>>),
    /// Comes to its place once it has received.
    Receives(Receiver<Stamped<u32>>),
    /// Is true, comes to no place, and ends once it has received.
    StaysAway(Receiver<Stamped<u32>>),
    /// Ends without coming.
    Ends,
    /// Is true, and is lost.
    IsLost,
    /// Sends three times. Between the last two it is true, and comes to its place.
    Speaks(Sender<Stamped<u32>>),
    /// Receives three times. Each time it is true from then on, and comes to its place, with the number that it got.
    Listens(Receiver<Stamped<u32>>),
}

impl<H: Wait + Clock + Send + Drop> LosableProcess for Guest<H> {
    ghost use Rattle.std.specs.Prelude.{is_some};

    type Shared = Room;

    type Answer = Option<bool>;

    ghost done = { λ answer. is_some answer };

    fn run<L: Loan, R: Wait>(self, rt: &R, probe: &mut LentProbe<L>, room: &Room) -> Option<bool> {
        let met = match &self.part {
            Part::Comes => self.arrive(probe, room, 1),
            Part::ComesUnderLock => {
                let held = room.plain.lock(rt);
                let met = self.arrive(probe, room, 2);
                drop(held);
                met
            }
            Part::ComesTwice => { self.arrive(probe, room, 4) || self.arrive(probe, room, 5) }
            Part::ComesAndSends(channel) => {
                let met = self.arrive(probe, room, 6);
                probe.send(rt, channel, 1, 7).is_ok() && met
            }
            Part::Sends(channel) => {
                probe.observe(rt, true);
                probe.send(rt, channel, 1, 7).is_ok() && self.arrive(probe, room, 3)
            }
            Part::Receives(channel) => self.receive(rt, probe, room, channel),
            Part::StaysAway(channel) => {
                probe.observe(rt, true);
                let _got = probe.recv(rt, channel);
                false
            }
            Part::Ends => false,
            Part::IsLost => {
                probe.observe(rt, true);
                return None;
            }
            Part::Speaks(channel) => self.speak(rt, probe, room, channel),
            Part::Listens(channel) => {
                let _first = self.receive(rt, probe, room, channel);
                let _second = self.receive(rt, probe, room, channel);
                self.receive(rt, probe, room, channel)
            }
        };
        Some(met)
    }

    fn is_done(answer: &Option<bool>) -> bool {
        answer.is_some()
    }
}

impl<H: Wait + Clock> Guest<H> {
    fn arrive<L: Loan>(&self, probe: &mut LentProbe<L>, room: &Room, label: u64) -> bool {
        room.meeting
            .arrive(&self.handle, probe, label, room.patience)
    }

    fn receive<L: Loan, R: Wait>(
        &self,
        rt: &R,
        probe: &mut LentProbe<L>,
        room: &Room,
        channel: &Receiver<Stamped<u32>>,
    ) -> bool {
        match probe.recv(rt, channel) {
            Ok(label) => self.arrive(probe, room, label.into()),
            Err(_) => false,
        }
    }

    fn speak<L: Loan, R: Wait>(
        &self,
        rt: &R,
        probe: &mut LentProbe<L>,
        room: &Room,
        channel: &Sender<Stamped<u32>>,
    ) -> bool {
        let first = probe.send(rt, channel, 1, 11).is_ok();
        let second = probe.send(rt, channel, 1, 12).is_ok();
        let met = self.arrive(probe, room, 20);
        let third = probe.send(rt, channel, 1, 13).is_ok();
        first && second && third && met
    }
}

/// What a watch of such processes tells, of which the first two are watched, and who was at this meeting.
pub fn watch_guests<R: Threads + Wait + Clock + Send + Sync + Abort + Clone + Drop + 'static>(
    rt: &R,
    alloc: Global,
    parts: Vec<Part>,
    meeting: Meeting,
    patience: Duration,
) -> (Result<WatchOutcome<Option<bool>>, WatchFault>, Attendance) {
    let room = Room {
        meeting,
        plain: Mutex::new(0),
        patience,
    };
    let Ok(processes) = u32::try_from(parts.len()) else {
        panic!(rt; "too many processes")
    };
    let mut guests = Vec::with_capacity(alloc, parts.len()).expect(rt, "memory");
    for part in parts {
        let handle = rt.clone().expect(rt, "memory");
        guests.push(Guest { part, handle }).expect(rt, "memory");
    }
    let mut plan = plain_plan(alloc, processes, 8, 4).expect(rt, "memory");
    plan.watched = Watched::pair(0, 1);
    let book = Mutex::new(Book::new(2));
    let watched = watch_processes(rt, alloc, &plan, 1, guests, &room, &book);
    let attendance = room.meeting.attendance(rt);
    (watched, attendance)
}

/// The report of such a watch, which answers this, and whose meeting is told so.
pub fn assert_watched<R: Threads + Wait + Clock + Send + Sync + Abort + Clone + Drop + 'static>(
    rt: &R,
    alloc: Global,
    parts: Vec<Part>,
    meeting: Meeting,
    patience: Duration,
    met: &[Option<bool>],
    told: &str,
) -> Report {
    let (watched, there) = watch_guests(rt, alloc, parts, meeting, patience);
    let Ok(watched) = watched else {
        panic!(rt; "no answer")
    };
    assert!(rt; watched.answers.as_slice() == met);
    assert_told(rt, alloc, &there, told);
    watched.outcome.report
}

/// Whether an attendance is told in these words.
pub fn assert_told<R: Abort>(rt: &R, alloc: Global, there: &Attendance, told: &str) {
    let text = format!(in alloc; "{there}").expect(rt, "memory");
    assert!(rt; text.as_str() == told);
}

/// Long enough for any machine, where all come.
pub fn long() -> Duration {
    Duration::from_secs(60)
}

/// So long waits who waits in vain.
pub fn short() -> Duration {
    Duration::from_millis(20)
}
