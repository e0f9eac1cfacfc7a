//! The printed text of a replay.
ghost use Rattle.std.specs.Prelude.{◌≡◌, ◌++◌, IfOk, OnOk, string_bytes};
ghost use Rattle.std.specs.List.{flat_map};
ghost use Rattle.wcp_report.specs.ReplayText.{replay_text};
ghost use Rattle.wcp_report.specs.ReplyText.{reply_line};

use crate::reply_line::push_reply;
use crate::report_lines::push_report;
use std::alloc::{AllocError, Global};
use wcp_model::{Outcome, Reply};

/// The line of each reply, and then the text of the outcome so far. `Err` where memory runs out.
pub fn replay_text(
    alloc: Global,
    replies: &[Reply],
    outcome: &Outcome,
) -> Result<Vec<u8>, AllocError>
    ensures { IfOk result (λ text. text.items ≡ replay_text replies.now outcome.now) }
{
    let mut text = String::new(alloc);
    push_replies(&mut text, replies)?;
    push_report(&mut text, outcome)?;
    Ok(text.into_bytes())
}

fn push_replies(text: &mut String, replies: &[Reply]) -> Result<(), AllocError>
    ensures { OnOk result (string_bytes text.new ≡ string_bytes text.old ++ flat_map reply_line replies.now) }
{
    for reply in replies {
        push_reply(text, reply)?;
    }
    Ok(())
}
