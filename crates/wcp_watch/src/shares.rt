ghost use Rattle.std.specs.Prelude.{◌≡◌, ◌↔◌, ◌<◌, ◌≤◌, ℕ, Some, length, slice_get, IsTrue};
ghost use Rattle.std.specs.Option.{option_flatten};
ghost use Rattle.wcp_clock.specs.Limits.{most_processes};
ghost use Rattle.wcp_relay.specs.LiveProbe.{ClosedSide, NotesRise};
ghost use Rattle.wcp_watch.specs.SeatedEnds.{AreShares};
ghost use Rattle.wcp_watch.specs.Seats.{SitsAt};
ghost use Rattle.wcp_model.specs.Verdict.{cut_of};
ghost use Rattle.wcp_watch.specs.Settling.{share_of};

use wcp_book::Book;
use wcp_clock::MAX_PROCS;
use wcp_model::{GlobalCut, Report, Tallies, Tally};
use wcp_relay::ProbeEnd;

/// The tallies of the first processes, where all that their probes emitted was taken. Their ends tell that the clocks
/// rise.
pub(crate) fn tallies(probes: &[Option<ProbeEnd>], count: u32) -> Tallies
    requires some { 0 < count }
    requires few { count ≤ most_processes }
    requires there { count ≤ length probes.now }
    ensures { AreShares count probes.now result }
{
    let mut tallies = [Tally {
        emitted: 0,
        taken: 0,
    }; MAX_PROCS];
    for p in 0..count as usize {
        let tally = tally_at(probes, p);
        tallies[p] = tally;
    }
    Tallies::new(&tallies[..count as usize])
}

/// The tally of process `p`, where all that its probe emitted was taken.
fn tally_at(probes: &[Option<ProbeEnd>], p: usize) -> Tally
    requires { p < length probes.now }
    ensures share { (probe : ClosedSide) → SitsAt probes.now p probe → result ≡ share_of probe }
    ensures rise { (probe : ClosedSide) → SitsAt probes.now p probe → NotesRise probe.id probe.link.put }
{
    match &probes[p] {
        Some(probe) => whole_tally(probe),
        None => Tally {
            emitted: 0,
            taken: 0,
        },
    }
}

/// The tally of the process of this end, where all that its probe emitted was taken.
fn whole_tally(probe: &ProbeEnd) -> Tally
    ensures share { result ≡ share_of probe.now }
    ensures rise { NotesRise probe.now.id probe.now.link.put }
{
    let emitted = u64::from(probe.emitted());
    Tally {
        emitted,
        taken: emitted,
    }
}

/// Whether just these shares are in the book, and just the cut of this report.
pub(crate) fn is_book_of(tallies: &Tallies, report: &Report, book: &Book) -> bool
    ensures { IsTrue result ↔ (((p : ℕ) → option_flatten (slice_get book.now.shares p) ≡ slice_get tallies.now p)
        × (book.now.found ≡ cut_of report.now)) }
{
    are_posted(tallies, book) && is_same(book.found(), report.cut())
}

/// Whether both are the same cut, or there is none.
fn is_same(one: Option<GlobalCut>, other: Option<GlobalCut>) -> bool
    ensures { IsTrue result ↔ (one ≡ other) }
{
    match (one, other) {
        (Some(one), Some(other)) => are_same(&one, &other),
        (None, None) => true,
        (None, Some(_)) | (Some(_), None) => false,
    }
}

/// Whether both cuts name the same intervals.
fn are_same(one: &GlobalCut, other: &GlobalCut) -> bool
    ensures { IsTrue result ↔ (one.now ≡ other.now) }
{
    if one.len() != other.len() {
        return false;
    }
    for p in 0..one.len() {
        if one.get(p) != other.get(p) {
            return false;
        }
    }
    true
}

/// Whether just these shares are in the book.
fn are_posted(tallies: &Tallies, book: &Book) -> bool
    ensures { IsTrue result ↔ ((p : ℕ) → option_flatten (slice_get book.now.shares p) ≡ slice_get tallies.now p) }
{
    for p in 0..MAX_PROCS as u32 {
        if book.share(p) != tally_of(tallies, p) {
            return false;
        }
    }
    true
}

/// The tally of process `p`, if there is such a process.
fn tally_of(tallies: &Tallies, p: u32) -> Option<Tally>
    ensures value { result ≡ slice_get tallies.now p }
    ensures within { length tallies.now ≤ most_processes }
{
    if p < tallies.len() {
        Some(tallies.get(p))
    } else {
        None
    }
}
