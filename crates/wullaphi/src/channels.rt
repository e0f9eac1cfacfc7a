//! A message through a channel, stamped and received in the call that sends or takes it.
ghost use Rattle.std.specs.Prelude.{◌≡◌, OnOk, IfOk, IfErr};
ghost use Rattle.wcp_probe.specs.Core.{setup_of};
ghost use Rattle.wullaphi.specs.Channels.{ReceivesNone, ReceivesSome, SendsNone};
ghost use Rattle.wullaphi.specs.WatchedLocks.{Leaves};

use crate::channel_fault::ChannelFault;
use crate::lent_probe::{LentProbe, Loan};
use crossbeam_channel::{Receiver, SendError, Sender};
use std::sync::Wait;
use wcp_probe::Stamped;

impl<L: Loan> LentProbe<L> {
    /// Sends this to process `to`, which takes from the other end of this channel. Waits while the channel is full. A
    /// condition that lasts is observed again.
    pub fn send<T: Drop, R: Wait>(
        &mut self,
        rt: &R,
        channel: &Sender<Stamped<T>>,
        to: u32,
        value: T,
    ) -> Result<(), ChannelFault<T>>
        ensures sent { OnOk result (Leaves self.old self.new) }
        ensures fault { IfErr result (SendsNone self.old to value self.new) }
        ensures same { setup_of self.new.core ≡ setup_of self.old.core }
    {
        let message = match self.stamp(to, value) {
            Ok(message) => message,
            Err((refusal, value)) => return Err(ChannelFault::Send { refusal, value }),
        };
        let sent = channel.send(rt, message);
        self.observe_again(rt);
        match sent {
            Ok(()) => Ok(()),
            Err(SendError::Disconnected(message)) => Err(ChannelFault::NoReceiver(message)),
            Err(SendError::OutOfMemory(message)) => Err(ChannelFault::Memory(message)),
        }
    }

    /// Receives the next message of this channel. Waits for one. A condition that lasts is observed again.
    pub fn recv<T: Drop, R: Wait>(
        &mut self,
        rt: &R,
        channel: &Receiver<Stamped<T>>,
    ) -> Result<T, ChannelFault<T>>
        ensures received { IfOk result (λ value. ReceivesSome value self.old self.new) }
        ensures fault { IfErr result (λ fault. ReceivesNone fault self.old self.new) }
        ensures same { setup_of self.new.core ≡ setup_of self.old.core }
    {
        let Ok(message) = channel.recv(rt) else {
            return Err(ChannelFault::NoSender);
        };
        match self.receive(message) {
            Ok(value) => {
                self.observe_again(rt);
                Ok(value)
            }
            Err((refusal, message)) => Err(ChannelFault::Receive { refusal, message }),
        }
    }
}
