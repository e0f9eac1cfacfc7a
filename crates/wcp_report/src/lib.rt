//! The exact bytes of an answer: the lines of a reply, of an outcome and of a replay.
//!
//! What is proved. `report_text`, `reply_text` and `replay_text`: the exact bytes.
#![tactic(auto)]

mod replay_lines;
mod reply_line;
mod report_lines;

pub use replay_lines::replay_text;
pub use reply_line::{push_reply, reply_text};
pub use report_lines::{push_report, report_text};
