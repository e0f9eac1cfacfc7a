use anyhow::Result;
use crossbeam_channel::{Receiver, Sender};
use std::alloc::Global;
use std::sync::{Arc, Wait};
use std::time::{Clock, Duration};
use wullaphi::{LentProbe, Loan, Meeting, Process, Stamped};
use wullaphi_record::Record;

/// So many milliseconds a worker waits with its token for another one that has one too.
const PATIENCE: u64 = 200;

/// What the workers pass: it goes on for so many hops.
#[derive(Clone, Copy)]
pub(crate) struct Token(pub(crate) u32);

/// A worker of the ring. Its condition is that it holds a token. It answers with a record of what it did.
#[derive(Drop)]
pub(crate) struct RingWorker<H> {
    pub(crate) alloc: Global,
    /// How often it lets in its token.
    pub(crate) lets_in: u32,
    pub(crate) token: Token,
    /// How often it gets one from the worker before it.
    pub(crate) turns: u32,
    pub(crate) inbox: Receiver<Stamped<Token>>,
    /// The worker behind it.
    pub(crate) next: u32,
    pub(crate) outbox: Sender<Stamped<Token>>,
    /// Where the workers meet, if they are to.
    pub(crate) meeting: Option<Arc<Meeting>>,
    /// It may wait at a meeting, and sees a clock.
    pub(crate) handle: H,
}

impl<H: Wait + Clock + Send + Drop> Process for RingWorker<H> {
    type Shared = ();

    type Answer = Result<Record>;

    fn run<L: Loan, R: Wait>(
        self,
        rt: &R,
        probe: &mut LentProbe<L>,
        _shared: &(),
    ) -> Result<Record> {
        let name = format!(in self.alloc; "worker {}", probe.id())?;
        let mut record = Record::new(self.alloc, probe, name.as_str())?;
        for _ in 0..self.lets_in {
            self.hold(rt, probe, &mut record, self.token)?;
        }
        for _ in 0..self.turns {
            probe.observe(rt, false);
            let token = probe.recv(rt, &self.inbox)?;
            self.hold(rt, probe, &mut record, token)?;
        }
        probe.observe(rt, false);
        Ok(record)
    }
}

impl<H: Wait + Clock> RingWorker<H> {
    /// Holds a token, and passes it on unless it has no hop left.
    fn hold<L: Loan, R: Wait>(
        &self,
        rt: &R,
        probe: &mut LentProbe<L>,
        record: &mut Record,
        token: Token,
    ) -> Result<()> {
        record.event(probe, "takes a token")?;
        probe.observe(rt, true); // my condition holds: I have the token
        self.meet(probe, token);
        if token.0 == 0 {
            return Ok(());
        }
        record.event(probe, "passes it on")?;
        probe.send(rt, &self.outbox, self.next, Token(token.0 - 1))?;
        Ok(())
    }

    /// Waits with its token for another worker that has one too, if they are to meet.
    fn meet<L: Loan>(&self, probe: &mut LentProbe<L>, token: Token) {
        if let Some(meeting) = &self.meeting {
            let hops = u64::from(token.0);
            meeting.arrive(&self.handle, probe, hops, Duration::from_millis(PATIENCE));
        }
    }
}
