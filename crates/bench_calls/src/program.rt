use crate::player::{Outbox, Partner, Player, Role};
use crossbeam_channel::{Receiver, bounded};
use std::alloc::{AllocError, Global};
use std::mem;

/// The room of each channel.
const ROOM: usize = 16;

/// How many processes a long ring has.
const RING: u32 = 16;

/// How many stages a pipeline has.
const STAGES: u32 = 4;

/// How many processes of a pool take jobs.
const TAKERS: u32 = 3;

/// What the processes do together.
#[derive(Clone, Copy)]
pub enum Program {
    /// A token goes around a ring of so many.
    Ring(u32),
    /// Values go from a source through two stages to a sink.
    Pipeline,
    /// A giver sends a job to each of three takers, waits for the answers, and begins anew.
    Pool,
}

impl Program {
    /// The program of this name.
    pub fn named(name: &str) -> Option<Program> {
        match name {
            "ping-pong" => Some(Program::Ring(2)),
            "ring" => Some(Program::Ring(RING)),
            "pipeline" => Some(Program::Pipeline),
            "pool" => Some(Program::Pool),
            _ => None,
        }
    }

    /// How many processes it has.
    pub fn processes(self) -> u32 {
        match self {
            Program::Ring(members) => members,
            Program::Pipeline => STAGES,
            Program::Pool => TAKERS.saturating_add(1),
        }
    }

    /// Its processes, by their numbers. They send about so many messages in all, each as often as the others. `Err`
    /// where memory runs out.
    pub fn players<M: Drop>(
        self,
        alloc: Global,
        messages: u32,
    ) -> Result<Vec<Player<M>>, AllocError> {
        match self {
            Program::Ring(members) => ring(alloc, members, messages / members.max(1)),
            Program::Pipeline => pipeline(alloc, messages / 3),
            Program::Pool => pool(alloc, messages / 6),
        }
    }
}

/// Adds processes, from the number `first` on and below `end`, each of which passes on what it takes to the next one,
/// and the first of which takes from this inbox. The inbox behind the last one.
fn add_passers<M: Drop>(
    alloc: Global,
    players: &mut Vec<Player<M>>,
    first: u32,
    end: u32,
    mut inbox: Receiver<M>,
    turns: u32,
) -> Result<Receiver<M>, AllocError> {
    for id in first..end {
        let (messages, behind) = bounded(alloc, ROOM)?;
        let outbox = Outbox {
            to: id.wrapping_add(1),
            messages,
        };
        let ahead = mem::replace(&mut inbox, behind);
        players.push(Player {
            role: Role::Passer(ahead, outbox),
            turns,
            phase: id,
        })?;
    }
    Ok(inbox)
}

/// A ring whose last process has the token at first.
fn ring<M: Drop>(alloc: Global, members: u32, turns: u32) -> Result<Vec<Player<M>>, AllocError> {
    let mut players = Vec::new(alloc);
    let (messages, inbox) = bounded(alloc, ROOM)?;
    let last = members.saturating_sub(1);
    let answers = add_passers(alloc, &mut players, 0, last, inbox, turns)?;
    let outbox = Outbox { to: 0, messages };
    let partners = vec![in alloc; Partner { outbox, answers }]?;
    players.push(Player {
        role: Role::Asker(partners),
        turns,
        phase: last,
    })?;
    Ok(players)
}

fn pipeline<M: Drop>(alloc: Global, turns: u32) -> Result<Vec<Player<M>>, AllocError> {
    let mut players = Vec::new(alloc);
    let (messages, inbox) = bounded(alloc, ROOM)?;
    players.push(Player {
        role: Role::Source(Outbox { to: 1, messages }),
        turns,
        phase: 0,
    })?;
    let behind = add_passers(alloc, &mut players, 1, STAGES - 1, inbox, turns)?;
    players.push(Player {
        role: Role::Sink(behind),
        turns,
        phase: STAGES - 1,
    })?;
    Ok(players)
}

/// A pool whose last process gives out the jobs.
fn pool<M: Drop>(alloc: Global, turns: u32) -> Result<Vec<Player<M>>, AllocError> {
    let mut players = Vec::new(alloc);
    let mut partners = Vec::new(alloc);
    for taker in 0..TAKERS {
        let (jobs, inbox) = bounded(alloc, ROOM)?;
        let (messages, answers) = bounded(alloc, ROOM)?;
        let to_giver = Outbox {
            to: TAKERS,
            messages,
        };
        players.push(Player {
            role: Role::Passer(inbox, to_giver),
            turns,
            phase: taker,
        })?;
        let outbox = Outbox {
            to: taker,
            messages: jobs,
        };
        partners.push(Partner { outbox, answers })?;
    }
    players.push(Player {
        role: Role::Asker(partners),
        turns,
        phase: TAKERS,
    })?;
    Ok(players)
}
