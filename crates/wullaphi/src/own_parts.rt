//! The parts of an opened watch, which know that they are its own.
ghost use Rattle.std.specs.Prelude.{◌≡◌, is_some, IfNone, IfSome};
ghost use Rattle.wcp_probe.specs.Core.{setup_of};
ghost use Rattle.wcp_relay.specs.LiveProbe.{IsEndOfProbe};
ghost use Rattle.wcp_relay.specs.RelayEnds.{number_of};
ghost use Rattle.wullaphi.specs.Lent.{HasLeft, HasRun};
ghost use Rattle.wullaphi.specs.Opened.{HasOpened, IsCheckerOf, IsProbeOf, IsRelayOf};

use crate::lending::lend_and_close;
use crate::opening::Opening;
use crate::own_ends::{WatchCheckerEnd, WatchProbeEnd, WatchRelayEnd};
use crate::process::{LosableProcess, Process};
use crate::watch_run::WatchRun;
use std::marker::{Model, PhantomData};
use std::sync::{Mutex, Wait};
use std::thread::{Threads, join};
use wcp_book::Book;
use wcp_queue::Panel;
use wcp_tree::{CheckerInbox, LiveProbe, Relay};
use wcp_watch::check_loop;

/// A probe of an opened watch, for the thread of its process. It has made no call yet. A relay waits until each of its
/// probes has run, or is dropped: the process of one that is dropped in place of run is lost.
///
/// A contract sees it as the live probe that it is.
#[derive(Drop)]
pub struct WatchProbe<W: Opening> {
    probe: LiveProbe,
    run: WatchRun,
    of: PhantomData<W>,
}

impl<W: Opening> Model for WatchProbe<W> {
    ghost use Rattle.wcp_relay.specs.LiveProbe.{LiveSide};
    ghost use Rattle.wullaphi.specs.Opened.{HasOpened, IsProbeOf};

    ghost Value = { LiveSide };

    ghost view = { λ p. p.probe };

    ghost invariant = { λ p. HasOpened (IsProbeOf p.probe) W.opened };
}

impl<W: Opening> WatchProbe<W> {
    /// This probe of the watch, in this run of it.
    pub(crate) fn new(probe: LiveProbe, run: WatchRun) -> WatchProbe<W>
        requires { HasOpened (IsProbeOf probe) W.opened }
        ensures { result ≡ probe }
    {
        WatchProbe {
            probe,
            run,
            of: PhantomData,
        }
    }

    /// The number of its process.
    pub fn id(&self) -> u32
        ensures { result ≡ self.now.core.id }
    {
        self.probe.id()
    }

    /// Runs a process with this probe, in this thread, and closes the probe.
    pub fn run<S, A, P: Process<Shared = S, Answer = A>, R: Wait>(
        self,
        rt: &R,
        process: P,
        shared: &S,
    ) -> (A, WatchProbeEnd<W>)
        ensures closed { IsEndOfProbe self result.1 }
        ensures ran { HasRun P.leaves self.core.watch (setup_of self.core) process result.0 result.1.link.put }
    {
        let WatchProbe { probe, run, of: _ } = self;
        let (answer, end) = lend_and_close(rt, process, probe, run, shared);
        match end {
            Some(end) => (answer, WatchProbeEnd::new(end)),
            None => unreachable!(),
        }
    }

    /// Runs a process with this probe, in this thread, and closes the probe if the part of the process is done. Else
    /// the process is lost: its probe is dropped, and has no end.
    pub fn run_or_lose<S, A, P: LosableProcess<Shared = S, Answer = A>, R: Wait>(
        self,
        rt: &R,
        process: P,
        shared: &S,
    ) -> (A, Option<WatchProbeEnd<W>>)
        ensures done { is_some result.1 ≡ P.done result.0 }
        ensures closed { IfSome result.1 (λ end. IsEndOfProbe self end) }
        ensures ran { IfSome result.1 (λ end.
            HasRun P.leaves self.core.watch (setup_of self.core) process result.0 end.link.put) }
        ensures lost { IfNone result.1 (HasLeft P.leaves self.core.watch (setup_of self.core) process result.0) }
    {
        let WatchProbe { probe, run, of: _ } = self;
        let (answer, end) = lend_and_close(rt, process, probe, run, shared);
        match end {
            Some(end) => (answer, Some(WatchProbeEnd::new(end))),
            None => (answer, None),
        }
    }
}

/// A relay of an opened watch, for a thread of its own.
///
/// A contract sees it as its number in the plan.
#[derive(Drop)]
pub struct WatchRelay<W: Opening> {
    relay: Relay,
    of: PhantomData<W>,
}

impl<W: Opening> Model for WatchRelay<W> {
    ghost use Rattle.std.specs.Prelude.{ℕ};
    ghost use Rattle.wullaphi.specs.Opened.{HasOpened, IsRelayOf};

    ghost Value = { ℕ };

    ghost view = { λ r. r.relay.number };

    ghost invariant = { λ r. HasOpened (IsRelayOf r.relay) W.opened };
}

impl<W: Opening> WatchRelay<W> {
    /// This relay of the watch.
    pub(crate) fn new(relay: Relay) -> WatchRelay<W>
        requires { HasOpened (IsRelayOf relay) W.opened }
        ensures { result ≡ relay.number }
    {
        WatchRelay {
            relay,
            of: PhantomData,
        }
    }

    /// Passes on what comes, in this thread, until each process below it has run or is lost and all of it was passed
    /// on, or until a fault comes, which its end tells.
    pub fn run<R: Wait>(self, rt: &R) -> WatchRelayEnd<W>
        ensures { number_of result ≡ self }
    {
        let WatchRelay { relay, of: _ } = self;
        WatchRelayEnd::new(relay.run(rt))
    }
}

impl<W: Opening + Send + Sync> WatchRelay<W> {
    /// Runs it in a thread of its own, and the others in this one. Where no thread can be made it is run here after the
    /// others, which then wait for ever if they emit more than the links have room for.
    pub fn run_beside<T, F: FnOnce() -> T, R: Threads + Wait + Sync>(
        self,
        rt: &R,
        others: F,
    ) -> (WatchRelayEnd<W>, T)
        requires { F.pre others }
        ensures number { number_of result.0 ≡ self }
        ensures others { F.post others result.1 }
    {
        join(rt, move || self.run(rt), others)
    }
}

/// The checker of an opened watch, for a thread of its own.
///
/// A contract sees it as the number of its watch.
#[derive(Drop)]
pub struct WatchChecker<W: Opening> {
    inbox: CheckerInbox,
    panel: Panel,
    of: PhantomData<W>,
}

impl<W: Opening> Model for WatchChecker<W> {
    ghost use Rattle.std.specs.Prelude.{ℕ};
    ghost use Rattle.wullaphi.specs.Opened.{HasOpened, IsCheckerOf};

    ghost Value = { ℕ };

    ghost view = { λ c. c.inbox.watch };

    ghost invariant = { λ c. HasOpened (IsCheckerOf c.inbox c.panel) W.opened };
}

impl<W: Opening> WatchChecker<W> {
    /// The checker of the watch, at its inbox.
    pub(crate) fn new(inbox: CheckerInbox, panel: Panel) -> WatchChecker<W>
        requires { HasOpened (IsCheckerOf inbox panel) W.opened }
        ensures { result ≡ inbox.watch }
    {
        WatchChecker {
            inbox,
            panel,
            of: PhantomData,
        }
    }

    /// Takes all that the processes emit, in this thread, until each has run or is lost, and writes it into the book:
    /// the share of each process that has run, and the cut as soon as it is found. Then it ends the book.
    pub fn run<R: Wait>(self, rt: &R, book: &Mutex<Book>) -> WatchCheckerEnd<W>
        ensures { result.watch ≡ self }
    {
        let WatchChecker {
            inbox,
            panel,
            of: _,
        } = self;
        WatchCheckerEnd::new(check_loop(rt, inbox, panel, book))
    }
}
