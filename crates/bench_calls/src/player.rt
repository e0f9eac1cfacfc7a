use crate::attending::{Attending, Unwatched};
use crate::work::Work;
use anyhow::{Result, anyhow};
use crossbeam_channel::{Receiver, Sender};
use std::alloc::AllocError;
use std::sync::Wait;
use std::thread::{Threads, map_vec};
use wullaphi::{LentProbe, Loan, Process, Stamped};

/// What all processes do at a message.
#[derive(Clone, Copy)]
pub struct Task {
    pub work: Work,
    /// The condition holds in one of so many turns, or in none where this is 0.
    pub every: u32,
}

impl Task {
    fn is_due(self, turn: u32) -> bool {
        self.every > 0 && turn % self.every == 0
    }
}

/// The end of a channel to process `to`.
#[derive(Drop)]
pub struct Outbox<M: Drop> {
    pub to: u32,
    pub messages: Sender<M>,
}

/// Whom a process asks and who answers it.
#[derive(Drop)]
pub struct Partner<M: Drop> {
    pub outbox: Outbox<M>,
    pub answers: Receiver<M>,
}

/// What a process does in each turn.
#[derive(Drop)]
pub enum Role<M: Drop> {
    /// It makes a value, and sends it. Its condition is that it makes one.
    Source(Outbox<M>),
    /// It takes a message, and sends on what it makes of it. Its condition is that it has one.
    Passer(Receiver<M>, Outbox<M>),
    /// It takes a message. Its condition never holds.
    Sink(Receiver<M>),
    /// It sends a message to each partner, and takes the answers. Its condition is that it has them all.
    Asker(Vec<Partner<M>>),
}

/// A process.
#[derive(Drop)]
pub struct Player<M: Drop> {
    pub role: Role<M>,
    pub turns: u32,
    /// By how many turns it is ahead of others with the turns in which its condition holds.
    pub phase: u32,
}

impl<M: Drop> Player<M> {
    /// Plays all turns. What comes of it depends on each message that it took.
    pub fn play<R: Wait, A: Attending<Message = M>>(
        self,
        rt: &R,
        attending: &mut A,
        task: &Task,
    ) -> Result<u64> {
        let mut value = 0;
        for turn in 0..self.turns {
            let due = task.is_due(turn.wrapping_add(self.phase));
            value = match &self.role {
                Role::Source(outbox) => {
                    attending.judge(rt, due);
                    let made = task.work.run(value);
                    send(rt, attending, outbox, made)?;
                    made
                }
                Role::Passer(inbox, outbox) => {
                    let made = take(rt, attending, inbox, due, task.work)?;
                    send(rt, attending, outbox, made)?;
                    made
                }
                Role::Sink(inbox) => value ^ take(rt, attending, inbox, false, task.work)?,
                Role::Asker(partners) => ask(rt, attending, partners, due, task.work, value)?,
            };
        }
        Ok(value)
    }
}

/// Sends a value.
fn send<R: Wait, A: Attending>(
    rt: &R,
    attending: &mut A,
    outbox: &Outbox<A::Message>,
    value: u64,
) -> Result<()> {
    let message = attending.wrap(outbox.to, value)?;
    outbox
        .messages
        .send(rt, message)
        .map_err(|_| anyhow!("the receiver is gone"))
}

/// Takes a message, after which the condition holds or not, and works: what comes of its value.
fn take<R: Wait, A: Attending>(
    rt: &R,
    attending: &mut A,
    inbox: &Receiver<A::Message>,
    holds: bool,
    work: Work,
) -> Result<u64> {
    let message = inbox.recv(rt)?;
    let value = attending.unwrap(message)?;
    attending.judge(rt, holds);
    Ok(work.run(value))
}

/// Sends a value to each partner, and takes the answers: what comes of all of them.
fn ask<R: Wait, A: Attending>(
    rt: &R,
    attending: &mut A,
    partners: &[Partner<A::Message>],
    due: bool,
    work: Work,
    value: u64,
) -> Result<u64> {
    for partner in partners {
        send(rt, attending, &partner.outbox, value)?;
    }
    let mut made = 0u64;
    for (place, partner) in partners.iter().enumerate() {
        let is_last = partners.len() - place == 1;
        let answer = take(rt, attending, &partner.answers, is_last && due, work)?;
        made = made.rotate_left(1) ^ answer;
    }
    Ok(made)
}

impl Process for Player<Stamped<u64>> {
    type Shared = Task;

    type Answer = Result<u64>;

    fn run<L: Loan, R: Wait>(self, rt: &R, probe: &mut LentProbe<L>, task: &Task) -> Result<u64> {
        self.play(rt, probe, task)
    }
}

/// Runs each of these, unwatched, in a thread of its own. `Err` where memory runs out.
pub fn play_all<R: Threads + Wait + Sync>(
    rt: &R,
    players: Vec<Player<u64>>,
    task: &Task,
) -> Result<Vec<Result<u64>>, AllocError> {
    map_vec(
        rt,
        players,
        &|player: Player<u64>| player.play(rt, &mut Unwatched, task),
    )
}
