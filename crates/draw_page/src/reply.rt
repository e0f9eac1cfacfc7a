//! What else was asked of a page's events, and what was answered.
ghost use Rattle.std.specs.Prelude.{OnOk, option_map, string_bytes};
ghost use Rattle.draw_page.specs.Adding.{Adds};
ghost use Rattle.draw_page.specs.Model.{condition_tokens, conditions_tokens, held_tokens, holds_tokens, others_tokens};
ghost use Rattle.draw_page.specs.Model.{replies_tokens, reply_tokens, said_tokens};

use crate::data::{put_answer, put_text, put_watch};
use crate::members::{put_members, put_places};
use crate::model::{HostWatch, Page, PageReply};
use json::Writer;
use std::alloc::AllocError;

/// Writes the name of the first question and what else was asked, where several questions were.
#[tactic(auto, unfolding(crate::specs::Model::others_tokens))]
pub(crate) fn put_others(out: &mut Writer, page: &Page) -> Result<(), AllocError>
    ensures { OnOk result (Adds out.old out.new (others_tokens (string_bytes page.now.question) page.now.others.items)) }
{
    if page.others.is_empty() {
        return Ok(());
    }
    put_text(out, "question", page.question.as_str())?;
    put_replies(out, &page.others)
}

/// Writes what else was asked.
#[tactic(auto, unfolding(crate::specs::Model::replies_tokens))]
fn put_replies(out: &mut Writer, replies: &[PageReply]) -> Result<(), AllocError>
    ensures { OnOk result (Adds out.old out.new (replies_tokens replies.now)) }
{
    out.key("others")?;
    out.begin_array()?;
    for reply in replies {
        put_reply(out, reply)?;
    }
    out.end_array()
}

/// Writes a question and its answer.
fn put_reply(out: &mut Writer, reply: &PageReply) -> Result<(), AllocError>
    ensures { OnOk result (Adds out.old out.new (reply_tokens reply.now)) }
{
    out.begin_object()?;
    put_said(out, reply)?;
    put_held(out, reply)?;
    out.end_object()
}

/// Writes what is asked, by which name, and what is answered.
fn put_said(out: &mut Writer, reply: &PageReply) -> Result<(), AllocError>
    ensures { OnOk result (Adds out.old out.new (said_tokens reply.now)) }
{
    put_text(out, "question", reply.question.as_str())?;
    put_answer(out, reply.asks, reply.answer, reply.words.as_str())
}

/// Writes the conditions, at which events they hold, and the moment or the runs.
fn put_held(out: &mut Writer, reply: &PageReply) -> Result<(), AllocError>
    ensures { OnOk result (Adds out.old out.new (held_tokens reply.now)) }
{
    put_conditions(out, &reply.watches)?;
    put_holds(out, &reply.holds)?;
    put_members(out, &reply.moment, &reply.over)
}

/// Writes the condition of each host.
#[tactic(auto, unfolding(crate::specs::Model::conditions_tokens))]
fn put_conditions(out: &mut Writer, watches: &[Option<HostWatch>]) -> Result<(), AllocError>
    ensures { OnOk result (Adds out.old out.new (conditions_tokens watches.now)) }
{
    out.key("watches")?;
    out.begin_array()?;
    for watch in watches {
        put_condition(out, watch)?;
    }
    out.end_array()
}

/// Writes the condition of a host, or that it has none.
fn put_condition(out: &mut Writer, watch: &Option<HostWatch>) -> Result<(), AllocError>
    ensures { OnOk result (Adds out.old out.new (condition_tokens watch.now)) }
{
    let Some(watch) = watch else {
        return out.null();
    };
    out.begin_object()?;
    put_watch(out, watch)?;
    out.end_object()
}

/// Writes at which events a condition holds.
#[tactic(auto, unfolding(crate::specs::Model::holds_tokens))]
fn put_holds(out: &mut Writer, places: &[usize]) -> Result<(), AllocError>
    ensures { OnOk result (Adds out.old out.new (holds_tokens places.now)) }
{
    out.key("holds")?;
    out.begin_array()?;
    put_places(out, places)?;
    out.end_array()
}
