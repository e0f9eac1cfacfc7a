//! The data of a page.
ghost use Rattle.std.specs.Prelude.{◌≡◌, OnOk, option_map};
ghost use Rattle.draw_page.specs.Adding.{Adds};
ghost use Rattle.draw_page.specs.Model.{answer_name, answer_tokens, source_tokens, page_tokens, hosts_tokens, host_tokens, watch_tokens};
ghost use Rattle.draw_page.specs.Model.{events_tokens, left_counts, left_out_tokens, messages_tokens, count_tokens};
ghost use Rattle.draw_page.specs.Model.{text_tokens, front_tokens, question_name, rule_name, shown_tokens, around_tokens};

use crate::event::{PageEvent, put_event};
use crate::members::put_members;
use crate::message::{PageMessage, put_message};
use crate::model::{HostRule, HostWatch, LeftOut, Page, PageAnswer, PageHost, PageQuestion};
use crate::reply::put_others;
use json::Writer;
use std::alloc::AllocError;

/// What a place counts.
const UNIT: &str = "line";

/// Writes the model of a page.
pub(crate) fn put_page(out: &mut Writer, page: &Page) -> Result<(), AllocError>
    ensures { OnOk result (Adds out.old out.new (page_tokens page.now)) }
{
    out.begin_object()?;
    put_front(out, page)?;
    put_shown(out, page)?;
    put_around(out, page)?;
    put_others(out, page)?;
    out.end_object()
}

/// Writes the hosts and the events.
fn put_shown(out: &mut Writer, page: &Page) -> Result<(), AllocError>
    ensures { OnOk result (Adds out.old out.new (shown_tokens page.now)) }
{
    put_hosts(out, &page.hosts)?;
    put_events(out, &page.events)
}

/// Writes what is said of the events: the moment or the runs, what is left out, and the messages.
fn put_around(out: &mut Writer, page: &Page) -> Result<(), AllocError>
    ensures { OnOk result (Adds out.old out.new (around_tokens page.now)) }
{
    put_members(out, &page.moment, &page.over)?;
    put_left_out(out, page.left_out)?;
    put_messages(out, &page.messages)
}

/// Writes what the program says.
#[tactic(auto, unfolding(crate::specs::Model::front_tokens))]
fn put_front(out: &mut Writer, page: &Page) -> Result<(), AllocError>
    ensures { OnOk result (Adds out.old out.new (front_tokens page.now)) }
{
    put_source(out, page)?;
    put_answer(out, page.asks, page.answer, page.words.as_str())
}

/// Writes the program and what it read.
#[tactic(auto, unfolding(crate::specs::Model::source_tokens))]
fn put_source(out: &mut Writer, page: &Page) -> Result<(), AllocError>
    ensures { OnOk result (Adds out.old out.new (source_tokens page.now)) }
{
    put_text(out, "program", page.program.as_str())?;
    put_text(out, "title", page.title.as_str())?;
    put_text(out, "unit", UNIT)
}

/// Writes what is asked, and what is answered.
#[tactic(auto, unfolding(crate::specs::Model::answer_tokens))]
pub(crate) fn put_answer(
    out: &mut Writer,
    asks: PageQuestion,
    answer: PageAnswer,
    words: &str,
) -> Result<(), AllocError>
    ensures { OnOk result (Adds out.old out.new (answer_tokens asks answer words.now)) }
{
    let asks = question_name(asks);
    let answer = answer_name(answer);
    put_text(out, "asks", asks)?;
    put_text(out, "answer", answer)?;
    put_text(out, "words", words)
}

/// The name of a question.
#[tactic(auto, unfolding(crate::specs::Model::question_name))]
fn question_name(asks: PageQuestion) -> &'static str
    ensures { result.now ≡ question_name asks }
{
    match asks {
        PageQuestion::AllHosts => "all",
        PageQuestion::AnyTwo => "two",
        PageQuestion::Definitely => "definitely",
    }
}

/// The name of an answer, as the data of a page has it.
#[tactic(auto, unfolding(crate::specs::Model::answer_name))]
pub fn answer_name(answer: PageAnswer) -> &'static str
    ensures { result.now ≡ answer_name answer }
{
    match answer {
        PageAnswer::Found => "found",
        PageAnswer::NoMoment => "none",
        PageAnswer::Undecided => "undecided",
        PageAnswer::Definite => "definite",
        PageAnswer::Possible => "possible",
    }
}

/// Writes a member that is a text.
#[tactic(auto, unfolding(crate::specs::Events::text_tokens))]
pub(crate) fn put_text(out: &mut Writer, name: &str, text: &str) -> Result<(), AllocError>
    ensures { OnOk result (Adds out.old out.new (text_tokens name.now text.now)) }
{
    out.key(name)?;
    out.string(text)
}

/// Writes a member that is a number.
#[tactic(auto, unfolding(crate::specs::Events::count_tokens))]
pub(crate) fn put_count(out: &mut Writer, name: &str, count: u64) -> Result<(), AllocError>
    ensures { OnOk result (Adds out.old out.new (count_tokens name.now count)) }
{
    out.key(name)?;
    out.u64(count)
}

/// Writes the hosts.
#[tactic(auto, unfolding(crate::specs::Model::hosts_tokens))]
fn put_hosts(out: &mut Writer, hosts: &[PageHost]) -> Result<(), AllocError>
    ensures { OnOk result (Adds out.old out.new (hosts_tokens hosts.now)) }
{
    out.key("hosts")?;
    out.begin_array()?;
    for host in hosts {
        put_host(out, host)?;
    }
    out.end_array()
}

/// Writes a host.
fn put_host(out: &mut Writer, host: &PageHost) -> Result<(), AllocError>
    ensures { OnOk result (Adds out.old out.new (host_tokens host.now)) }
{
    out.begin_object()?;
    put_text(out, "name", host.name.as_str())?;
    if let Some(watch) = &host.watch {
        put_watch(out, watch)?;
    }
    out.end_object()
}

/// Writes the condition of a host.
#[tactic(auto, unfolding(crate::specs::Model::watch_tokens))]
pub(crate) fn put_watch(out: &mut Writer, watch: &HostWatch) -> Result<(), AllocError>
    ensures { OnOk result (Adds out.old out.new (watch_tokens watch.now)) }
{
    let rule = rule_name(watch.rule);
    put_text(out, "rule", rule)?;
    put_text(out, "condition", watch.condition.as_str())
}

/// The name of a rule.
#[tactic(auto, unfolding(crate::specs::Model::rule_name))]
fn rule_name(rule: HostRule) -> &'static str
    ensures { result.now ≡ rule_name rule }
{
    match rule {
        HostRule::While => "while",
        HostRule::At => "at",
    }
}

/// Writes the events.
#[tactic(auto, unfolding(crate::specs::Model::events_tokens))]
fn put_events(out: &mut Writer, events: &[PageEvent]) -> Result<(), AllocError>
    ensures { OnOk result (Adds out.old out.new (events_tokens events.now)) }
{
    out.key("events")?;
    out.begin_array()?;
    for event in events {
        put_event(out, event)?;
    }
    out.end_array()
}

/// Writes what isn't among the events.
#[tactic(auto, unfolding(crate::specs::Model::left_out_tokens))]
fn put_left_out(out: &mut Writer, left_out: LeftOut) -> Result<(), AllocError>
    ensures { OnOk result (Adds out.old out.new (left_out_tokens left_out)) }
{
    out.key("left_out")?;
    out.begin_object()?;
    put_counts(out, left_out)?;
    out.end_object()
}

/// Writes how much isn't among the events. Behind the last of them it isn't counted.
#[tactic(auto, unfolding(crate::specs::Model::left_counts))]
fn put_counts(out: &mut Writer, left_out: LeftOut) -> Result<(), AllocError>
    ensures { OnOk result (Adds out.old out.new (left_counts left_out)) }
{
    put_count(out, "before", left_out.before)?;
    put_count(out, "after", 0)?;
    out.key("more")?;
    out.boolean(left_out.more)
}

/// Writes the messages, where they are known.
#[tactic(auto, unfolding(crate::specs::Model::messages_tokens))]
fn put_messages(out: &mut Writer, messages: &Option<Vec<PageMessage>>) -> Result<(), AllocError>
    ensures { OnOk result (Adds out.old out.new (messages_tokens (option_map (λ messages. messages.items) messages.now))) }
{
    let Some(messages) = messages else {
        return Ok(());
    };
    out.key("messages")?;
    out.begin_array()?;
    for message in messages {
        put_message(out, *message)?;
    }
    out.end_array()
}
