use std::error::Error;
use std::fmt;
use std::fmt::{Debug, Display, Formatter, Write};
use wcp_probe::{Refusal, Stamped};

/// Why a message was not sent through a channel, or none was received, with what wasn't.
#[derive(Drop)]
pub enum ChannelFault<T> {
    /// The probe refused to stamp this.
    Send {
        refusal: Refusal,
        value: T,
    },
    /// Nobody takes from the channel any more. This was stamped, and may go to its receiver by another way.
    NoReceiver(Stamped<T>),
    /// Memory ran out, which it does where a channel is unbounded or has no room of its own. This was stamped.
    Memory(Stamped<T>),
    /// The probe refused to receive this, which was taken from the channel.
    Receive {
        refusal: Refusal,
        message: Stamped<T>,
    },
    /// The channel is empty, and nobody puts into it any more.
    NoSender,
}

impl<T: Drop> Error for ChannelFault<T> {}

impl<T> Display for ChannelFault<T> {
    fn fmt<W: Write>(&self, f: &mut Formatter<W>) -> fmt::Result {
        match self {
            ChannelFault::Send { refusal, .. } | ChannelFault::Receive { refusal, .. } => {
                Display::fmt(refusal, f)
            }
            ChannelFault::NoReceiver(_) => f.pad("nobody receives from the channel"),
            ChannelFault::Memory(_) => f.pad("no memory for the message"),
            ChannelFault::NoSender => f.pad("nobody sends to the channel"),
        }
    }
}

impl<T> Debug for ChannelFault<T> {
    fn fmt<W: Write>(&self, f: &mut Formatter<W>) -> fmt::Result {
        f.pad(match self {
            ChannelFault::Send { .. } => "Send { .. }",
            ChannelFault::NoReceiver(_) => "NoReceiver(..)",
            ChannelFault::Memory(_) => "Memory(..)",
            ChannelFault::Receive { .. } => "Receive { .. }",
            ChannelFault::NoSender => "NoSender",
        })
    }
}
