ghost use Rattle.std.specs.Prelude.{◌≡◌, ◌↔◌, [], ◌∷◌, ◌++◌, false, true, Some, None};
ghost use Rattle.std.specs.Prelude.{IsTrue, IfOk, IfErr, IfSome, IfNone, OnErr};
ghost use Rattle.wcp_clock.specs.Notes.{place_of};
ghost use Rattle.wcp_clock.specs.declared.note.Item.{Item};
ghost use Rattle.wcp_clock.specs.declared.note.Note.{Note};
ghost use Rattle.wcp_clock.specs.declared.note.Note.TheVariants.{Lost};
ghost use Rattle.wcp_relay.specs.Feeding.{given_by, IsInOrder, IsNextAfterNotes, IsNextOfProcess};
ghost use Rattle.wcp_relay.specs.Feeding.{CameFromRing, MayComeFromRing};
ghost use Rattle.wcp_relay.specs.declared.take_fault.TakeFault.TheVariants as fault;

use crate::outlet::Outlet;
use crate::take_fault::TakeFault;
use wcp_clock::{CLOCK_LIMIT, Item, Note};
use wcp_lane::Cut;
use wcp_ring::RingTaker;

/// What a leaf relay takes from one process: the end of its ring, and how far it came.
#[derive(Drop)]
pub struct Feed {
    /// The number of the process.
    pub process: u32,
    /// How many of its snapshots were taken, which is the place of its next note.
    pub next: u32,
    /// Whether its last note was taken, or made.
    pub ended: bool,
    /// Whether the process was lost: its last note is a mark that was made here.
    pub lost: bool,
    pub taker: RingTaker,
}

/// A leaf took a note that wasn't the next one of its process: only the take of a feed makes one.
#[derive(Clone, Copy, Debug, PartialEq, Eq)]
pub(crate) struct Gap {
    process: u32,
    /// What the leaf's lane had answered by then, if it was cut.
    cut: Option<Cut>,
}

impl Gap {
    /// The number of the process.
    pub(crate) fn process(&self) -> u32
        ensures { result ≡ self.now.process }
    {
        self.process
    }
}

impl Feed {
    /// The feed of a process from which nothing was taken yet.
    pub fn new(process: u32, taker: RingTaker) -> Feed
        ensures process { result.process ≡ process }
        ensures taker { result.taker ≡ taker }
        ensures next { result.next ≡ 0 }
        ensures ended { result.ended ≡ false }
        ensures lost { result.lost ≡ false }
    {
        Feed {
            process,
            next: 0,
            ended: false,
            lost: false,
            taker,
        }
    }

    /// The next item of the process: what its ring has or, once the ring is gone and then empty before a last note
    /// came, the mark that the process was lost. `Err` where a note of the ring is out of place: it tells whether the
    /// leaf's outlet was cut by then.
    pub(crate) fn take(&mut self, outlet: &Outlet) -> Result<Option<Item>, TakeFault>
        requires { IsInOrder self.old }
        ensures same { (self.new.process ≡ self.old.process) × (self.new.taker.ring ≡ self.old.taker.ring) }
        ensures some { IfOk result (λ found. IfSome found (λ item.
            (item.from ≡ self.old.process)
            × (given_by self.new ≡ given_by self.old ++ item.note ∷ [])
            × IsNextAfterNotes (given_by self.old) item.note)) }
        ensures none { IfOk result (λ found. IfNone found (given_by self.new ≡ given_by self.old)) }
        ensures in_order { IfOk result (λ found. IsInOrder self.new) }
        ensures gap { IfErr result (λ met.
            (met ≡ fault.Gap (record { process = self.old.process; cut = outlet.now.cut }))
            × ((note : Note)
            × (given_by self.new ≡ given_by self.old ++ note ∷ [])
            × ¬ IsNextOfProcess (given_by self.old) note)) }
        ensures ring { IfErr result (λ met. CameFromRing true self.new.taker.taken) }
    {
        if self.lost {
            return Ok(None);
        }
        let note = match look(&mut self.taker) {
            Ok(note) => note,
            Err(Empty::ForNow) => return Ok(None),
            Err(Empty::ForGood) => return Ok(self.lose()),
        };
        if self.ended || !may_come(&note, self.next) {
            return Err(TakeFault::Gap(Gap {
                process: self.process,
                cut: outlet.cut,
            }));
        }
        if note.is_last() {
            self.ended = true;
        } else {
            self.next += 1;
        }
        Ok(Some(self.item(note)))
    }

    /// Nothing comes any more: the mark that the process was lost, unless a last note of it came before.
    fn lose(&mut self) -> Option<Item>
        ensures ended { self.old.ended ≡ true → (result ≡ None) × (self.new ≡ self.old) }
        ensures lost { self.old.ended ≡ false
            → (result ≡ Some (record { from = self.old.process; note = Lost self.old.next }))
            × (self.new ≡ record self.old { ended = true; lost = true }) }
    {
        if self.ended {
            return None;
        }
        self.ended = true;
        self.lost = true;
        Some(self.item(Note::Lost { count: self.next }))
    }

    /// A note of the process as an item.
    fn item(&self, note: Note) -> Item
        ensures { result ≡ record { from = self.now.process; note = note } }
    {
        Item {
            from: self.process,
            note,
        }
    }
}

/// A ring has no note.
#[derive(Drop)]
enum Empty {
    ForNow,
    /// The other end was gone before the ring was found empty.
    ForGood,
}

/// Takes the next note of a ring. What was put before the other end went may come after a first look, so a ring that is
/// gone is looked at once more.
fn look(taker: &mut RingTaker) -> Result<Note, Empty>
    ensures ring { taker.new.ring ≡ taker.old.ring }
    ensures note { IfOk result (λ note. taker.new.taken ≡ taker.old.taken ++ note ∷ []) }
    ensures empty { OnErr result (taker.new.taken ≡ taker.old.taken) }
{
    if let Some(note) = taker.try_take() {
        return Ok(note);
    }
    if !taker.gone() {
        return Err(Empty::ForNow);
    }
    taker.try_take().ok_or(Empty::ForGood)
}

/// Whether a note may come next out of a ring, where its process is at this place.
fn may_come(note: &Note, place: u32) -> bool
    ensures { IsTrue result ↔ ((place_of note.now ≡ place) × MayComeFromRing note.now) }
{
    match note {
        Note::Snap { number, .. } => *number == place && place <= CLOCK_LIMIT,
        Note::Close { count } => *count == place,
        Note::Lost { .. } => false,
    }
}
