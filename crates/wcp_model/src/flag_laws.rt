ghost use Rattle.wcp_model.specs.FlagLaws.{EventFlagLaw, SendFlagLaw};

/// The event-flag law: where each communication event resets the flag, every true state of a watched
/// process is emitted.
pub fn event_flag_law()
    ensures { EventFlagLaw }
{}

/// The send-flag law: whatever resets the flag, each member of a least cut is emitted. So a checker
/// that sees the emitted states alone finds the least cut.
pub fn send_flag_law()
    ensures { SendFlagLaw }
{}
