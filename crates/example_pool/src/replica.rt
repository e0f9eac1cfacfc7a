ghost use Rattle.std.specs.Prelude.{◌≡◌, [], OnOk};
ghost use Rattle.wcp_relay.specs.LiveProbe.{LiveFor};
ghost use Rattle.example_pool.specs.Logs.{AnswersJob};
ghost use Rattle.example_pool.specs.Members.{LeavesPart};
ghost use Rattle.example_pool.specs.declared.member.PoolMember.TheVariants as member;

use crate::job::{Job, JobNumbers, JobSum};
use crate::member::{Share, Stop};
use crossbeam_channel::{Receiver, Sender};
use std::sync::Wait;
use wullaphi::{LentProbe, Loan, Stamped};

/// The process that gives out the jobs.
const DISPATCHER: u32 = 0;

/// A replica: it takes a job in each round, and answers it. Its condition is that it is at work.
#[derive(Drop)]
pub struct Replica {
    pub(crate) jobs: Receiver<Stamped<Job>>,
    pub(crate) answers: Sender<Stamped<JobSum>>,
    pub(crate) rounds: u16,
    /// It vanishes in the middle of its first job.
    pub(crate) vanishes: bool,
}

impl Replica {
    /// Answers a job in each round.
    pub(crate) fn run<L: Loan, R: Wait>(
        self,
        rt: &R,
        probe: &mut LentProbe<L>,
        numbers: &JobNumbers,
    ) -> Result<Share, Stop>
        requires { LiveFor probe.old [] }
        ensures { LeavesPart (member.Replica self) probe.new result }
    {
        let mut share = Share { jobs: 0, sum: 0 };
        for _ in 0..self.rounds {
            let Ok(stamped) = self.jobs.recv(rt) else {
                return Err(Stop::Gone);
            };
            let answer = answer_one(rt, probe, &self.answers, numbers, stamped, self.vanishes)?;
            share = share.with(answer);
        }
        Ok(share)
    }
}

/// Receives a job, is at work on it, and sends the answer, unless it vanishes at its work.
fn answer_one<L: Loan, R: Wait>(
    rt: &R,
    probe: &mut LentProbe<L>,
    answers: &Sender<Stamped<JobSum>>,
    numbers: &JobNumbers,
    stamped: Stamped<Job>,
    vanishes: bool,
) -> Result<JobSum, Stop>
    ensures { OnOk result (AnswersJob probe.old probe.new) }
{
    let job = match probe.receive(stamped) {
        Ok(job) => job,
        Err((refusal, _)) => return Err(Stop::Refused(refusal)),
    };
    probe.observe(rt, true);
    if vanishes {
        return Err(Stop::Vanished);
    }
    let answer = numbers.answer(job);
    match probe.stamp(DISPATCHER, answer) {
        Ok(stamped) => match answers.send(rt, stamped) {
            Ok(()) => Ok(answer),
            Err(_) => Err(Stop::Gone),
        },
        Err((refusal, _)) => Err(Stop::Refused(refusal)),
    }
}
