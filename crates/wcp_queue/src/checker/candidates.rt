ghost use Rattle.std.specs.Prelude.{◌≡◌, ◌<◌, ◌≤◌, true, false, List, length, IfSome, IsNone};
ghost use Rattle.std.specs.FinSet as set;
ghost use Rattle.wcp_clock.specs.declared.note.Item.{Item};
ghost use Rattle.wcp_model.specs.Cut.{Intervals, interval_of};
ghost use Rattle.wcp_model.specs.Report.{IsNamed};
ghost use Rattle.wcp_queue.specs.Candidates.{first_candidate, AreAllBelow, IsCutToCome};
ghost use Rattle.wcp_queue.specs.Checker.{StandsForItems};
ghost use Rattle.wcp_queue.specs.Rows.{row_of};

use super::{Checker, find_row};

impl Checker {
    /// The interval of the first candidate of a watched process: the earliest of its snapshots that may
    /// still be in the cut. Where the cut was found, that is its member. `None` where no snapshot that
    /// was taken may be: then each lies below the cut, if one comes.
    pub fn first_candidate(&self, p: u32) -> Option<u32>
        requires { set.contains self.now.watched p ≡ true }
        ensures value { result ≡ first_candidate self.now p }
        ensures taken { IfSome result (λ first. (items : List Item) → StandsForItems self.now items
            → IsNamed items (record { process = p; interval = first })) }
        ensures at_or_above { IfSome result (λ first. (items : List Item) (cut : Intervals)
            → StandsForItems self.now items → IsCutToCome self.now items cut → first ≤ interval_of cut p) }
        ensures none { IsNone result → self.now.starved ≡ false → (items : List Item) (cut : Intervals)
            → StandsForItems self.now items → IsCutToCome self.now items cut
            → AreAllBelow p items (interval_of cut p) }
    {
        let row = self.row_of_watched(p);
        if let Some(intervals) = &self.found {
            return Some(intervals.get(row));
        }
        if self.starved {
            return None;
        }
        self.floor.head(row as usize)
    }

    /// The row of a watched process.
    fn row_of_watched(&self, p: u32) -> u32
        requires { set.contains self.now.watched p ≡ true }
        ensures row { result ≡ row_of self.now.members p }
        ensures within { result < length self.now.members }
    {
        match find_row(&self.members, p) {
            Some(row) => row,
            None => unreachable!(),
        }
    }
}
