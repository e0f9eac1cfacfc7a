ghost use Rattle.std.specs.Prelude.{◌≡◌};

use wcp_clock::Clock;

/// A message with the stamp of its send: the watch, the sender, the receiver and the sender's clock
/// after the send. Only a probe makes one, and it can't be copied.
#[derive(Drop)]
pub struct Stamped<T> {
    pub(crate) watch: u64,
    pub(crate) from: u32,
    pub(crate) to: u32,
    pub(crate) clock: Clock,
    pub(crate) value: T,
}

impl<T> Stamped<T> {
    /// The process that sent the message.
    pub fn from(&self) -> u32
        ensures { result ≡ self.now.from }
    {
        self.from
    }

    /// The process that the message is for.
    pub fn to(&self) -> u32
        ensures { result ≡ self.now.to }
    {
        self.to
    }
}
