ghost use Rattle.wullaphi_record.specs.Logs.{RecordedClocksLaw};

/// By the clocks of a log one event happened before another exactly where it did by those of the probes.
pub fn recorded_clocks_law()
    ensures { RecordedClocksLaw }
{}
