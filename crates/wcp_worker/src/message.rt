use wcp_lane::Origin;
use wcp_probe::Stamped;

/// What a worker sends to another: the stamp of the send, and how many messages were put on its lane before.
#[derive(Drop)]
pub struct Message {
    pub(crate) stamped: Stamped<()>,
    pub(crate) place: u64,
}

impl Origin for Message {
    ghost use Rattle.std.specs.Prelude.{false, [], ◌∷◌};

    type Item = Message;

    ghost items = { λ m. m ∷ [] };

    ghost origin = { λ m. m.stamped.from };

    ghost place = { λ m. m.place };

    ghost last = { λ m. false };

    fn origin(&self) -> u32 {
        self.stamped.from()
    }

    fn place(&self) -> u64 {
        self.place
    }

    fn count(&self) -> u64 {
        1
    }

    fn last(&self) -> bool {
        false
    }
}
