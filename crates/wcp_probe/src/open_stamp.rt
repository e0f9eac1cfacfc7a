ghost use Rattle.std.specs.Prelude.{◌≡◌};

use wcp_clock::Clock;

/// A message with the stamp of its send, for whichever process takes it: the watch, the sender, and the sender's clock
/// after the send. Only a probe makes one, and it can't be copied. A probe takes it by reference, so it can stay where
/// it is, under a lock or in a cell that is written once, and many may take it.
#[derive(Drop)]
pub struct OpenStamped<T> {
    pub(crate) watch: u64,
    pub(crate) from: u32,
    pub(crate) clock: Clock,
    pub(crate) value: T,
}

impl<T> OpenStamped<T> {
    /// The process that sent the message.
    pub fn from(&self) -> u32
        ensures { result ≡ self.now.from }
    {
        self.from
    }

    /// The message.
    pub fn value(&self) -> &T
        ensures { result.now ≡ self.now.value }
    {
        &self.value
    }

    /// The message, without its stamp.
    pub fn into_value(self) -> T
        ensures { result ≡ self.value }
    {
        let OpenStamped {
            watch: _,
            from: _,
            clock: _,
            value,
        } = self;
        value
    }
}
