//! Steps of processes, as tooltips say them.
use crate::look::Look;
use std::alloc::{AllocError, Global};
use wcp_model::{Action, Task};

/// The task at this place, as its line in the text says it.
pub(crate) fn step_text(
    alloc: Global,
    look: &Look<'_>,
    place: usize,
    task: Task,
) -> Result<String, AllocError> {
    let mut text = String::new(alloc);
    if let Some(line) = look.lines.get(place) {
        write!(text, "line {line}: ")?;
    }
    let p = task.p;
    match task.action {
        Action::Observe(holds) => write!(text, "p {p} {holds}")?,
        Action::Send(to) => write!(text, "p {p} send {to}")?,
        Action::Recv(from) => write!(text, "p {p} recv {from}")?,
    }
    Ok(text)
}
