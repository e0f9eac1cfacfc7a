use crate::seats::End;
use wcp_relay::{ProbeEnd, RelayEnd};

impl End for ProbeEnd {
    ghost watch_of = { λ end. end.watch };

    ghost place_of = { λ end. end.id };

    fn watch_number(&self) -> u64 {
        self.watch()
    }

    fn place(&self) -> u32 {
        self.id()
    }
}

impl End for RelayEnd {
    ghost use Rattle.wcp_relay.specs.RelayEnds as relay;

    ghost watch_of = { relay.watch_of };

    ghost place_of = { relay.number_of };

    fn watch_number(&self) -> u64 {
        self.watch()
    }

    fn place(&self) -> u32 {
        self.number()
    }
}
