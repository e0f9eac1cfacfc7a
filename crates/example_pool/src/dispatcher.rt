ghost use Rattle.std.specs.Prelude.{◌≡◌, ℕ, ◌+◌, ◌*◌, ◌^◌, ◌<◌, ◌≤◌, length, OnOk};
ghost use Rattle.wcp_clock.specs.Limits.{most_processes};

use crate::job::{Job, JobSum};
use crate::member::{Share, Stop};
use crossbeam_channel::{Receiver, Sender};
use std::marker::Model;
use std::sync::Wait;
use wullaphi::{LentProbe, Loan, Stamped};

/// How the dispatcher gives out the jobs of a round, one for each replica.
#[derive(Clone, Copy, Debug, PartialEq, Eq)]
pub enum Pace {
    /// It gives out all of them, and then waits for the answers.
    Together,
    /// It waits for each answer before it gives out the next job.
    InTurn,
}

/// The dispatcher's ends of the channels to and from a replica.
#[derive(Drop)]
pub struct Partner {
    /// The replica's process.
    pub(crate) replica: u32,
    pub(crate) jobs: Sender<Stamped<Job>>,
    pub(crate) answers: Receiver<Stamped<JobSum>>,
}

/// The partners of a dispatcher. A contract sees their list; they are few.
#[derive(Drop)]
pub struct Partners {
    list: Vec<Partner>,
}

impl Model for Partners {
    ghost use Rattle.std.specs.Prelude.{◌≤◌, List, length};
    ghost use Rattle.wcp_clock.specs.Limits.{most_processes};
    ghost use Rattle.example_pool.specs.declared.dispatcher.Partner.{Partner};

    ghost Value = { List Partner };

    ghost view = { λ p. p.list.items };

    ghost invariant = { λ p. length p.list.items ≤ most_processes };
}

impl Partners {
    pub(crate) fn new(list: Vec<Partner>) -> Partners
        requires { length list.items ≤ most_processes }
        ensures { result ≡ list.items }
    {
        Partners { list }
    }

    fn into_list(self) -> Vec<Partner>
        ensures list { result.items ≡ self }
        ensures few { length result.items ≤ most_processes }
    {
        self.list
    }
}

/// What the dispatcher counts. Its condition is that a job is unanswered.
#[derive(Drop)]
pub struct Desk {
    /// How many jobs are unanswered.
    pub(crate) unanswered: u32,
    pub(crate) answered: Share,
}

/// The dispatcher: it gives out jobs in rounds, one for each replica.
#[derive(Drop)]
pub struct Dispatcher {
    pub(crate) partners: Partners,
    pub(crate) pace: Pace,
    pub(crate) rounds: u16,
}

/// Which job a replica gets in a round, counted from 0.
pub(crate) fn job_of(round: u16, replica: u32) -> Job {
    Job {
        number: (u32::from(round) * REPLICAS).wrapping_add(replica),
    }
}

/// How many replicas there are.
pub const REPLICAS: u32 = 3;

impl Desk {
    ghost use Rattle.example_pool.specs.Logs.{IsDispatching, most_unanswered};

    /// Sends a job to a replica.
    fn give_out<L: Loan, R: Wait>(
        &mut self,
        rt: &R,
        probe: &mut LentProbe<L>,
        partner: &Partner,
        job: Job,
    ) -> Result<(), Stop>
        requires few { self.old.unanswered < most_processes }
        ensures at_work { OnOk result ((most : ℕ) → self.old.unanswered < most
            → IsDispatching most probe.old self.old → IsDispatching most probe.new self.new) }
        ensures unanswered { OnOk result (self.new.unanswered ≡ self.old.unanswered + 1) }
        ensures answered { self.new.answered ≡ self.old.answered }
    {
        let stamped = match probe.stamp(partner.replica, job) {
            Ok(stamped) => stamped,
            Err((refusal, _)) => return Err(Stop::Refused(refusal)),
        };
        self.unanswered += 1;
        probe.observe(rt, true);
        match partner.jobs.send(rt, stamped) {
            Ok(()) => Ok(()),
            Err(_) => Err(Stop::Gone),
        }
    }

    /// Waits for the answer of a replica.
    fn take_answer<L: Loan, R: Wait>(
        &mut self,
        rt: &R,
        probe: &mut LentProbe<L>,
        partner: &Partner,
    ) -> Result<(), Stop>
        requires some { 0 < self.old.unanswered }
        requires room { self.old.answered.jobs + 1 < 2 ^ 32 }
        ensures at_work { OnOk result ((most : ℕ)
            → IsDispatching most probe.old self.old → IsDispatching most probe.new self.new) }
        ensures unanswered { OnOk result (self.new.unanswered + 1 ≡ self.old.unanswered) }
        ensures answered { OnOk result (self.new.answered.jobs ≡ self.old.answered.jobs + 1) }
    {
        let Ok(stamped) = partner.answers.recv(rt) else {
            return Err(Stop::Gone);
        };
        let answer = match probe.receive(stamped) {
            Ok(answer) => answer,
            Err((refusal, _)) => return Err(Stop::Refused(refusal)),
        };
        self.unanswered -= 1;
        probe.observe(rt, self.unanswered > 0);
        self.answered = self.answered.with(answer);
        Ok(())
    }

    /// Gives out the jobs of a round, all of them.
    fn give_out_all<L: Loan, R: Wait>(
        &mut self,
        rt: &R,
        probe: &mut LentProbe<L>,
        partners: &[Partner],
        round: u16,
    ) -> Result<(), Stop>
        requires at_work { IsDispatching (length partners.now) probe.old self.old }
        requires none { self.old.unanswered ≡ 0 }
        requires few { length partners.now ≤ most_processes }
        ensures at_work { OnOk result (IsDispatching (length partners.now) probe.new self.new) }
        ensures unanswered { OnOk result (self.new.unanswered ≡ length partners.now) }
        ensures answered { OnOk result (self.new.answered ≡ self.old.answered) }
    {
        for partner in partners {
            self.give_out(rt, probe, partner, job_of(round, partner.replica))?;
        }
        Ok(())
    }

    /// Waits for the answers of a round, all of them.
    fn take_all<L: Loan, R: Wait>(
        &mut self,
        rt: &R,
        probe: &mut LentProbe<L>,
        partners: &[Partner],
    ) -> Result<(), Stop>
        requires at_work { IsDispatching (length partners.now) probe.old self.old }
        requires all { self.old.unanswered ≡ length partners.now }
        requires room { self.old.answered.jobs + length partners.now < 2 ^ 32 }
        ensures at_work { OnOk result (IsDispatching (length partners.now) probe.new self.new) }
        ensures unanswered { OnOk result (self.new.unanswered ≡ 0) }
        ensures answered { OnOk result (self.new.answered.jobs ≡ self.old.answered.jobs + length partners.now) }
    {
        for partner in partners {
            self.take_answer(rt, probe, partner)?;
        }
        Ok(())
    }

    /// Gives out each job of a round and waits for its answer.
    fn ask_in_turn<L: Loan, R: Wait>(
        &mut self,
        rt: &R,
        probe: &mut LentProbe<L>,
        partners: &[Partner],
        round: u16,
    ) -> Result<(), Stop>
        requires at_work { IsDispatching 1 probe.old self.old }
        requires none { self.old.unanswered ≡ 0 }
        requires room { self.old.answered.jobs + length partners.now < 2 ^ 32 }
        ensures at_work { OnOk result (IsDispatching 1 probe.new self.new) }
        ensures unanswered { OnOk result (self.new.unanswered ≡ 0) }
        ensures answered { OnOk result (self.new.answered.jobs ≡ self.old.answered.jobs + length partners.now) }
    {
        for partner in partners {
            self.give_out(rt, probe, partner, job_of(round, partner.replica))?;
            self.take_answer(rt, probe, partner)?;
        }
        Ok(())
    }

    /// One round: each replica gets a job and answers it.
    fn run_round<L: Loan, R: Wait>(
        &mut self,
        rt: &R,
        probe: &mut LentProbe<L>,
        partners: &[Partner],
        pace: Pace,
        round: u16,
    ) -> Result<(), Stop>
        requires at_work { IsDispatching (most_unanswered pace (length partners.now)) probe.old self.old }
        requires none { self.old.unanswered ≡ 0 }
        requires few { length partners.now ≤ most_processes }
        requires room { self.old.answered.jobs + length partners.now < 2 ^ 32 }
        ensures at_work { OnOk result (IsDispatching (most_unanswered pace (length partners.now)) probe.new self.new) }
        ensures unanswered { OnOk result (self.new.unanswered ≡ 0) }
        ensures answered { OnOk result (self.new.answered.jobs ≡ self.old.answered.jobs + length partners.now) }
    {
        match pace {
            Pace::Together => {
                self.give_out_all(rt, probe, partners, round)?;
                self.take_all(rt, probe, partners)
            }
            Pace::InTurn => self.ask_in_turn(rt, probe, partners, round),
        }
    }

    /// All rounds.
    fn run_rounds<L: Loan, R: Wait>(
        &mut self,
        rt: &R,
        probe: &mut LentProbe<L>,
        partners: &[Partner],
        pace: Pace,
        rounds: u16,
    ) -> Result<(), Stop>
        requires at_work { IsDispatching (most_unanswered pace (length partners.now)) probe.old self.old }
        requires none { self.old.unanswered ≡ 0 }
        requires no_answer { self.old.answered.jobs ≡ 0 }
        requires few { length partners.now ≤ most_processes }
        ensures at_work { OnOk result (IsDispatching (most_unanswered pace (length partners.now)) probe.new self.new) }
        ensures unanswered { OnOk result (self.new.unanswered ≡ 0) }
        ensures answered { OnOk result (self.new.answered.jobs ≡ rounds * length partners.now) }
    {
        for round in 0..rounds {
            self.run_round(rt, probe, partners, pace, round)?;
        }
        Ok(())
    }
}

impl Dispatcher {
    ghost use Rattle.std.specs.Prelude.{[]};
    ghost use Rattle.wcp_relay.specs.LiveProbe.{LiveFor};
    ghost use Rattle.example_pool.specs.Members.{LeavesPart};
    ghost use Rattle.example_pool.specs.declared.member.PoolMember.TheVariants as member;

    /// Runs all rounds.
    pub(crate) fn run<L: Loan, R: Wait>(
        self,
        rt: &R,
        probe: &mut LentProbe<L>,
    ) -> Result<Share, Stop>
        requires { LiveFor probe.old [] }
        ensures { LeavesPart (member.Dispatcher self) probe.new result }
    {
        let partners = self.partners.into_list();
        let mut desk = Desk {
            unanswered: 0,
            answered: Share { jobs: 0, sum: 0 },
        };
        desk.run_rounds(rt, probe, &partners, self.pace, self.rounds)?;
        Ok(desk.answered)
    }
}
