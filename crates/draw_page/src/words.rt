//! The words of a page, which stand there for a reader without scripts.
ghost use Rattle.std.specs.Prelude.{◌≡◌, ◌++◌, OnOk, string_bytes};
ghost use Rattle.std.specs.List.{flat_map};
ghost use Rattle.draw_page.specs.Data.{named_words, reply_words, words_of};

use crate::html::push_html;
use crate::model::{Page, PageReply};
use std::alloc::AllocError;

/// Adds the words of a page: those of its answer, or of each one behind the name of its question.
#[tactic(auto, unfolding(crate::specs::Data::told_words))]
pub(crate) fn push_words(bytes: &mut Vec<u8>, page: &Page) -> Result<(), AllocError>
    ensures { OnOk result (bytes.new.items ≡ bytes.old.items ++ words_of page.now) }
{
    if page.others.is_empty() {
        return push_html(bytes, page.words.as_bytes());
    }
    push_named(bytes, page.question.as_str(), page.words.as_str())?;
    push_replies(bytes, &page.others)
}

/// Adds the words of an answer behind the name of its question.
fn push_named(bytes: &mut Vec<u8>, name: &str, words: &str) -> Result<(), AllocError>
    ensures { OnOk result (bytes.new.items ≡ bytes.old.items ++ named_words name.now words.now) }
{
    push_html(bytes, name.as_bytes())?;
    bytes.extend_from_slice(b": ")?;
    push_html(bytes, words.as_bytes())
}

/// Adds the words of what else was asked.
fn push_replies(bytes: &mut Vec<u8>, replies: &[PageReply]) -> Result<(), AllocError>
    ensures { OnOk result (bytes.new.items ≡ bytes.old.items ++ flat_map reply_words replies.now) }
{
    for reply in replies {
        push_named(bytes, reply.question.as_str(), reply.words.as_str())?;
    }
    Ok(())
}
