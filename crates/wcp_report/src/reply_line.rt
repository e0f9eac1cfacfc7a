//! The printed line of a reply.
ghost use Rattle.std.specs.Prelude.{◌≡◌, ◌∷◌, ◌++◌, IfOk, OnOk, string_bytes};
ghost use Rattle.std.specs.Fmt.{decimal};
ghost use Rattle.std.specs.List.{flat_map};
ghost use Rattle.wcp_report.specs.ReplyText.{note_words, reply_line};
ghost use Rattle.wcp_model.specs.declared.step.Reply.TheVariants.{Refused};

use itoa::Buffer;
use std::alloc::{AllocError, Global};
use wcp_clock::{Clock, Note};
use wcp_model::{Reply, Why};

/// The line of a reply. `Err` where memory runs out.
pub fn reply_text(alloc: Global, reply: &Reply) -> Result<Vec<u8>, AllocError>
    ensures { IfOk result (λ text. text.items ≡ reply_line reply.now) }
{
    let mut text = String::new(alloc);
    push_reply(&mut text, reply)?;
    Ok(text.into_bytes())
}

/// Adds the line of a reply to a text. `Err` where memory runs out.
pub fn push_reply(text: &mut String, reply: &Reply) -> Result<(), AllocError>
    ensures { OnOk result (string_bytes text.new ≡ string_bytes text.old ++ reply_line reply.now) }
{
    match reply {
        Reply::Done => text.push_str("done\n"),
        Reply::Took(item) => {
            text.push_str("took ")?;
            push_number(text, item.from)?;
            push_note(text, &item.note)?;
            text.push_str("\n")
        }
        Reply::Refused(why) => push_refusal(text, *why),
    }
}

fn push_note(text: &mut String, note: &Note) -> Result<(), AllocError>
    ensures { OnOk result (string_bytes text.new ≡ string_bytes text.old ++ note_words note.now) }
{
    match note {
        Note::Snap { number, clock } => {
            text.push_str(" snap ")?;
            push_number(text, *number)?;
            push_components(text, clock)
        }
        Note::Close { count } => write!(text, " close {count}"),
        Note::Lost { count } => write!(text, " lost {count}"),
    }
}

fn push_components(text: &mut String, clock: &Clock) -> Result<(), AllocError>
    ensures { OnOk result (string_bytes text.new
        ≡ string_bytes text.old ++ flat_map (λ component. 32 ∷ decimal component) clock.now) }
{
    for p in 0..clock.len() {
        push_component(text, clock.get(p))?;
    }
    Ok(())
}

fn push_component(text: &mut String, component: u32) -> Result<(), AllocError>
    ensures { OnOk result (string_bytes text.new ≡ string_bytes text.old ++ 32 ∷ decimal component) }
{
    text.push_str(" ")?;
    push_number(text, component)
}

fn push_number(text: &mut String, number: u32) -> Result<(), AllocError>
    ensures { OnOk result (string_bytes text.new ≡ string_bytes text.old ++ decimal number) }
{
    let mut digits = Buffer::new();
    text.push_str(digits.format(number))
}

/// Adds the line for why a step was refused: each in one piece of a known length.
fn push_refusal(text: &mut String, why: Why) -> Result<(), AllocError>
    ensures { OnOk result (string_bytes text.new ≡ string_bytes text.old ++ reply_line (Refused why)) }
{
    match why {
        Why::NoSuch => text.push_str("refused nosuch\n"),
        Why::Closed => text.push_str("refused closed\n"),
        Why::Backlog => text.push_str("refused backlog\n"),
        Why::Gone => text.push_str("refused gone\n"),
        Why::ClockEnd => text.push_str("refused clockend\n"),
        Why::Empty => text.push_str("refused empty\n"),
        Why::Full => text.push_str("refused full\n"),
    }
}
