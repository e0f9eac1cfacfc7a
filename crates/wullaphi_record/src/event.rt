//! What a process records by its probe.
ghost use Rattle.std.specs.Prelude.{◌≡◌, IfOk, OnOk, OnErr, MatchResult, max};
ghost use Rattle.wullaphi_record.specs.Recorded.{IsRefused, MayAdd, begun, most_kept, with_event};

use crate::fault::RecordFault;
use crate::record::Record;
use std::alloc::{AllocError, Global};
use wullaphi::{LentProbe, Loan};

impl Record {
    /// A record of the process that has this probe, which has this name in the log. It keeps all events.
    pub fn new<L: Loan>(
        alloc: Global,
        probe: &LentProbe<L>,
        name: &str,
    ) -> Result<Record, AllocError>
        ensures { IfOk result (λ made. made ≡ begun probe.now.core.id name.now most_kept) }
    {
        Record::of(alloc, probe.id(), name, usize::MAX)
    }

    /// The same, and it keeps the last events alone: at most so many, and at least one.
    pub fn of_last<L: Loan>(
        alloc: Global,
        probe: &LentProbe<L>,
        name: &str,
        most: usize,
    ) -> Result<Record, AllocError>
        ensures { IfOk result (λ made. made ≡ begun probe.now.core.id name.now (max most 1)) }
    {
        Record::of(alloc, probe.id(), name, most.max(1))
    }

    /// The process does what the text says. Call it before the stamp of a message that follows from it, and behind the
    /// receipt of one that it follows from.
    ///
    /// `OtherProbe`: the probe isn't of this process, or its clock is behind that of the last event, as that of a later
    /// watch is at first. So keep a record for each watch. `Long`: the text has more than 4,096 bytes. `Full`:
    /// 4,294,967,294 events were recorded.
    pub fn event<L: Loan>(&mut self, probe: &LentProbe<L>, text: &str) -> Result<(), RecordFault>
        ensures first { MatchResult
            result
            (λ _. MayAdd self.old probe.now.core.id probe.now.core.clock text.now)
            (λ fault. IsRefused self.old probe.now.core.id probe.now.core.clock text.now fault) }
        ensures unchanged { OnErr result (self.new ≡ self.old) }
        ensures added { OnOk result (self.new
            ≡ with_event self.old (record { clock = probe.now.core.clock; text = text.now })) }
    {
        self.add(probe.id(), probe.clock(), text)
    }
}
