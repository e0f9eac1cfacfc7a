ghost use Rattle.wcp_model.specs.TaskLog.{TaskLogLaw};

/// The task log law: where each process's log follows its tasks, and the stamps that each process
/// gets from another are a prefix of those that this sends it, the logs are those of the computation of
/// any fit order. So what is known of each process alone, and of each channel, tells of the whole.
pub fn task_log_law()
    ensures { TaskLogLaw }
{}
