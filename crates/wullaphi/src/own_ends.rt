//! The ends of an opened watch, which know that they are its own, and what they tell together.
ghost use Rattle.std.specs.Prelude.{◌≡◌, ◌↔◌, [], ◌∷◌, ◌++◌, Err, IfOk, OnErr, OnOk, Some};
ghost use Rattle.wcp_watch.specs.CheckerEnds.{IsReportTold, report_at};
ghost use Rattle.wcp_watch.specs.declared.settle_fault.SettleFault.{SettleFault};
ghost use Rattle.wullaphi.specs.Opened.{AreEndsOf, HasOpened, IsCheckerEndOf, IsProbeEndOf, IsRelayEndOf, no_ends};
ghost use Rattle.wullaphi.specs.OwnEnds.{AreSettled, IsFirstRefusal};

use crate::opening::Opening;
use std::alloc::{AllocError, Global};
use std::marker::{Model, PhantomData};
use wcp_book::Book;
use wcp_model::{Outcome, Report};
use wcp_tree::{ProbeEnd, RelayEnd};
use wcp_watch::{CheckerEnd, SettleFault, settle};

/// What is left of a probe of an opened watch: it is closed.
///
/// A contract sees it as the closed probe that it is.
#[derive(Drop)]
pub struct WatchProbeEnd<W: Opening> {
    end: ProbeEnd,
    of: PhantomData<W>,
}

impl<W: Opening> Model for WatchProbeEnd<W> {
    ghost use Rattle.wcp_relay.specs.LiveProbe.{ClosedSide};
    ghost use Rattle.wullaphi.specs.Opened.{HasOpened, IsProbeEndOf};

    ghost Value = { ClosedSide };

    ghost view = { λ e. e.end };

    ghost invariant = { λ e. HasOpened (IsProbeEndOf e.end) W.opened };
}

impl<W: Opening> WatchProbeEnd<W> {
    /// This end of a probe of the watch.
    pub(crate) fn new(end: ProbeEnd) -> WatchProbeEnd<W>
        requires { HasOpened (IsProbeEndOf end) W.opened }
        ensures { result ≡ end }
    {
        WatchProbeEnd {
            end,
            of: PhantomData,
        }
    }
}

/// What is left of a relay of an opened watch.
///
/// A contract sees it as the relay's end that it is.
#[derive(Drop)]
pub struct WatchRelayEnd<W: Opening> {
    end: RelayEnd,
    of: PhantomData<W>,
}

impl<W: Opening> Model for WatchRelayEnd<W> {
    ghost use Rattle.wcp_relay.specs.contracts.relay_end.RelayEnd as of_relay_end;
    ghost use Rattle.wcp_relay.specs.declared.relay_end.RelayEnd.{RelayEnd};
    ghost use Rattle.wullaphi.specs.Opened.{HasOpened, IsRelayEndOf};

    ghost Value = { RelayEnd };

    ghost coded = { of_relay_end.the_row.coded };

    ghost view = { λ e. e.end };

    ghost invariant = { λ e. HasOpened (IsRelayEndOf e.end) W.opened };
}

impl<W: Opening> WatchRelayEnd<W> {
    /// This end of a relay of the watch.
    pub(crate) fn new(end: RelayEnd) -> WatchRelayEnd<W>
        requires { HasOpened (IsRelayEndOf end) W.opened }
        ensures { result ≡ end }
    {
        WatchRelayEnd {
            end,
            of: PhantomData,
        }
    }
}

/// What is left of the checker of an opened watch.
///
/// A contract sees it as the checker's end that it is.
#[derive(Drop)]
pub struct WatchCheckerEnd<W: Opening> {
    end: CheckerEnd,
    of: PhantomData<W>,
}

impl<W: Opening> Model for WatchCheckerEnd<W> {
    ghost use Rattle.wcp_watch.specs.contracts.checker_end.CheckerEnd as of_checker_end;
    ghost use Rattle.wcp_watch.specs.declared.checker_end.CheckerEnd.{CheckerEnd};
    ghost use Rattle.wullaphi.specs.Opened.{HasOpened, IsCheckerEndOf};

    ghost Value = { CheckerEnd };

    ghost coded = { of_checker_end.the_row.coded };

    ghost view = { λ e. e.end };

    ghost invariant = { λ e. HasOpened (IsCheckerEndOf e.end) W.opened };
}

impl<W: Opening> WatchCheckerEnd<W> {
    /// This end of the checker of the watch.
    pub(crate) fn new(end: CheckerEnd) -> WatchCheckerEnd<W>
        requires { HasOpened (IsCheckerEndOf end) W.opened }
        ensures { result ≡ end }
    {
        WatchCheckerEnd {
            end,
            of: PhantomData,
        }
    }

    /// What the snapshots that the checker took tell. Where it was starved, that is a cut that it had found before, or
    /// `Undecided`.
    pub fn report(&self) -> Report
        ensures value { result ≡ report_at self.now 0 }
        ensures told { IsReportTold self.now 0 result }
        ensures of_watch { HasOpened (IsCheckerEndOf self.now) W.opened }
    {
        self.end.report()
    }

    /// The lowest process that was lost, if one was: the checker took the mark that its probe was dropped.
    pub fn lost(&self) -> Option<u32>
        ensures { result ≡ self.now.lost }
    {
        self.end.lost()
    }
}

/// The ends of an opened watch, as they are gathered.
///
/// A contract sees it as these ends.
#[derive(Drop)]
pub struct WatchEnds<W: Opening> {
    probes: Vec<ProbeEnd>,
    relays: Vec<RelayEnd>,
    checker: Option<CheckerEnd>,
    of: PhantomData<W>,
}

impl<W: Opening> Model for WatchEnds<W> {
    ghost use Rattle.std.specs.Coded.{codes};
    ghost use Rattle.wcp_relay.specs.contracts.relay_end.RelayEnd as of_relay_end;
    ghost use Rattle.wcp_watch.specs.contracts.checker_end.CheckerEnd as of_checker_end;
    ghost use Rattle.wullaphi.specs.Opened.{AreEndsOf, EndsOfWatch, HasOpened};

    ghost Value = { EndsOfWatch };

    ghost coded = { Prim.hlevel (codes, of_relay_end.the_row.coded, of_checker_end.the_row.coded) };

    ghost view = { λ e. record { probes = e.probes.items; relays = e.relays.items; checker = e.checker } };

    ghost invariant = { λ e.
        let ends : EndsOfWatch = record { probes = e.probes.items; relays = e.relays.items; checker = e.checker } in
        HasOpened (AreEndsOf ends) W.opened };
}

impl<W: Opening> WatchEnds<W> {
    /// No ends yet, with room for those of so many probes and relays. `Err` where memory runs out.
    pub(crate) fn new(
        alloc: Global,
        probes: usize,
        relays: usize,
    ) -> Result<WatchEnds<W>, AllocError>
        requires { HasOpened (AreEndsOf no_ends) W.opened }
        ensures { IfOk result (λ ends. ends ≡ no_ends) }
    {
        Ok(WatchEnds {
            probes: Vec::with_capacity(alloc, probes)?,
            relays: Vec::with_capacity(alloc, relays)?,
            checker: None,
            of: PhantomData,
        })
    }

    /// Adds the end of a probe. `Err` where memory runs out, and the end is let go.
    pub fn add_probe(&mut self, end: WatchProbeEnd<W>) -> Result<(), AllocError>
        ensures added { OnOk result (self.new ≡ record self.old { probes = self.old.probes ++ end ∷ [] }) }
        ensures unchanged { OnErr result (self.new ≡ self.old) }
    {
        let WatchProbeEnd { end, of: _ } = end;
        self.probes.push(end)?;
        Ok(())
    }

    /// Adds the end of a relay. `Err` where memory runs out, and the end is let go.
    pub fn add_relay(&mut self, end: WatchRelayEnd<W>) -> Result<(), AllocError>
        ensures added { OnOk result (self.new ≡ record self.old { relays = self.old.relays ++ end ∷ [] }) }
        ensures unchanged { OnErr result (self.new ≡ self.old) }
    {
        let WatchRelayEnd { end, of: _ } = end;
        self.relays.push(end)?;
        Ok(())
    }

    /// Adds the checker's end, in place of one that was added before.
    pub fn add_checker(&mut self, end: WatchCheckerEnd<W>)
        ensures { self.new ≡ record self.old { checker = Some end } }
    {
        let WatchCheckerEnd { end, of: _ } = end;
        self.checker = Some(end);
    }

    /// Proves the report of the watch from these ends and its book, as `settle` of `wcp_watch` does; nobody has to show
    /// where they come from. `Err` tells the first reason that applies: an end of the checker, a probe or a relay that
    /// wasn't added is `Missing`, and where the checker ran out of memory that is `Faulted`.
    pub fn settle(self, book: Book) -> Result<Outcome, SettleFault>
        ensures settled { IfOk result (AreSettled W.opened self book) }
        ensures first { (first : SettleFault) → (result ≡ Err first) ↔ IsFirstRefusal self book first }
    {
        let WatchEnds {
            probes,
            relays,
            checker,
            of: _,
        } = self;
        let Some(checker) = checker else {
            return Err(SettleFault::Missing);
        };
        settle(probes, relays, checker, book)
    }
}
