ghost use Rattle.wcp_model.specs.ProbeLog.{LogLaw};

/// The log law: what a probe keeps as it runs is what counting in the whole computation gives. Where
/// each stamp carries the clock of the state behind its send, each process's log has the clock of the
/// process's last state, and its emissions.
pub fn log_law()
    ensures { LogLaw }
{}
