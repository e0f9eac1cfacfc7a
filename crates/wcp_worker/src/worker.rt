ghost use Rattle.std.specs.Prelude.{◌≡◌, Some};
ghost use Rattle.wcp_relay.specs.LiveProbe.{ClosedSide, IsEndOfProbe};

use crate::gate::Gate;
use crate::mailbox::Mailbox;
use crate::player::Player;
use crate::worker_end::{WorkerEnd, WorkerFault};
use std::sync::Wait;
use wcp_model::Action;
use wcp_relay::LiveProbe;

/// Plays a process of a workload in a thread of its own: it has the process's player, and what the process does, in
/// order.
#[derive(Drop)]
pub struct Worker {
    pub(crate) player: Player,
    pub(crate) actions: Vec<Action>,
}

impl Worker {
    ghost use Rattle.wcp_worker.specs.Played.{IsFreshPlayer, IsEndOfWorker};

    /// Does all its actions, each after the gate has let it pass, closes its probe, and then takes the messages that
    /// no task of its process receives, so that all that was sent to it is taken. It waits for messages, and sleeps
    /// while its ring is full. Where it gives up, it drops its ends of the lanes, so that its partners meet
    /// a cut, and closes its probe.
    pub fn run<R: Wait, G: Gate>(self, rt: &R, gate: &G) -> WorkerEnd
        requires { IsFreshPlayer self.player }
        ensures { IsEndOfWorker self result }
    {
        let Worker {
            mut player,
            actions,
        } = self;
        let played = player.play(rt, gate, &actions);
        let Player { probe, mut mailbox } = player;
        if let Err(fault) = played {
            return give_up(rt, fault, probe, mailbox);
        }
        let probe = probe.close_in_watch(rt);
        match mailbox.take_rest(rt) {
            Ok(()) => WorkerEnd::Whole { probe, mailbox },
            Err(fault) => WorkerEnd::GaveUp {
                fault,
                probe: Some(probe),
            },
        }
    }
}

/// Drops the ends of the lanes, and then closes the probe.
fn give_up<R: Wait>(rt: &R, fault: WorkerFault, probe: LiveProbe, mailbox: Mailbox) -> WorkerEnd
    ensures { (end : ClosedSide) × (result ≡ WorkerEnd.GaveUp fault (Some end)) × IsEndOfProbe probe end }
{
    drop(mailbox);
    WorkerEnd::GaveUp {
        fault,
        probe: Some(probe.close_in_watch(rt)),
    }
}
