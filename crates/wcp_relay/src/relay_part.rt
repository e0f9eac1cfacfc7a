//! A relay as a part of a run.
use crate::relay::Relay;
use crate::relay_end::RelayEnd;
use std::sync::Wait;
use wcp_threads::{Part, RunsWith};

impl Part<RelayEnd> for Relay {
    ghost use Rattle.std.specs.Prelude.{⊤};
    ghost use Rattle.wcp_relay.specs.RelayEnds.{IsEndOfRelay};

    ghost is_ready = { λ relay. ⊤ };

    ghost is_end = { IsEndOfRelay };
}

impl RunsWith<(), RelayEnd> for Relay {
    fn run_with<R: Wait>(self, rt: &R, _shared: &()) -> RelayEnd {
        self.run(rt)
    }
}
