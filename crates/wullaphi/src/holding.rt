//! A condition that lasts.
ghost use Rattle.std.specs.Prelude.{◌≡◌, true};
ghost use Rattle.wcp_model.specs.ProbeLog.{Observed};
ghost use Rattle.wcp_probe.specs.Core.{setup_of};
ghost use Rattle.wcp_relay.specs.LiveProbe.{LiveAccepts};
ghost use Rattle.wullaphi.specs.WatchedLocks.{HoldsOn};

use crate::lent_probe::{LentProbe, Loan};
use std::sync::Wait;

impl<L: Loan> LentProbe<L> {
    /// The process observes that its condition holds, and that it lasts until `let_go`: each lock that is got or let go
    /// meanwhile, and each `send` and `recv`, is followed by an observation. A stamp and a receive are not, since they
    /// aren't given the runtime: hold again after those.
    pub fn hold<R: Wait>(&mut self, rt: &R)
        ensures accepted { LiveAccepts self.old (Observed true) self.new }
        ensures same { setup_of self.new.core ≡ setup_of self.old.core }
    {
        self.lasts = true;
        self.observe(rt, true);
    }

    /// The condition no longer lasts.
    pub fn let_go(&mut self)
        ensures { self.new ≡ self.old }
    {
        self.lasts = false;
    }

    /// Observes again if the condition lasts.
    pub(crate) fn observe_again<R: Wait>(&mut self, rt: &R)
        ensures again { HoldsOn self.old self.new }
        ensures same { setup_of self.new.core ≡ setup_of self.old.core }
    {
        if self.lasts {
            self.observe(rt, true);
        }
    }
}
