//! A page as the bytes of a file.
ghost use Rattle.std.specs.Prelude.{◌≡◌, ◌++◌, IfOk, OnOk};
ghost use Rattle.draw_page.specs.Data.{data_of, document, head, middle, order, drawing, hands, tail};
ghost use Rattle.draw_page.specs.Data.{safe, safe_byte, words_of, HasNoMarkup};
ghost use Rattle.draw_page.specs.Model.{page_tokens};
ghost use Rattle.json.specs.Print.{print};
ghost use Rattle.draw_page.specs.declared.model.Page.{Page};

use crate::data::put_page;
use crate::model::Page;
use crate::script_drawing::DRAWING;
use crate::script_hands::HANDS;
use crate::script_order::ORDER;
use crate::text::{HEAD, MIDDLE};
use crate::words::push_words;
use json::Writer;
use std::alloc::{AllocError, Global};

/// The page that shows this model, as an HTML file. `Err` where memory runs out.
#[tactic(auto, unfolding(crate::specs::Data::document))]
pub fn page(alloc: Global, page: &Page) -> Result<Vec<u8>, AllocError>
    ensures { IfOk result (λ bytes. bytes.items ≡ document page.now) }
{
    let json = json_of(alloc, page)?;
    let mut bytes = Vec::with_capacity(alloc, json.len())?;
    bytes.extend_from_slice(head().as_bytes())?;
    push_words(&mut bytes, page)?;
    bytes.extend_from_slice(middle().as_bytes())?;
    push_safe(&mut bytes, &json)?;
    push_tail(&mut bytes)?;
    Ok(bytes)
}

/// Neither the words nor the data have a byte that begins markup.
pub fn no_markup()
    ensures data { (page : Page) → HasNoMarkup (data_of page) }
    ensures words { (page : Page) → HasNoMarkup (words_of page) }
{}

/// What stands before the words.
#[tactic(auto, unfolding(crate::specs::Data::head))]
fn head() -> &'static str
    ensures { result.now ≡ head }
{
    HEAD
}

/// What stands between the words and the data.
#[tactic(auto, unfolding(crate::specs::Data::middle))]
fn middle() -> &'static str
    ensures { result.now ≡ middle }
{
    MIDDLE
}

/// Adds what stands behind the data: the script, by its parts.
fn push_tail(bytes: &mut Vec<u8>) -> Result<(), AllocError>
    ensures { OnOk result (bytes.new.items ≡ bytes.old.items ++ tail) }
{
    bytes.extend_from_slice(order().as_bytes())?;
    bytes.extend_from_slice(drawing().as_bytes())?;
    bytes.extend_from_slice(hands().as_bytes())?;
    Ok(())
}

/// What is shown, and in which order it stands.
#[tactic(auto, unfolding(crate::specs::Data::order))]
fn order() -> &'static str
    ensures { result.now ≡ order }
{
    ORDER
}

/// How it is drawn.
#[tactic(auto, unfolding(crate::specs::Data::drawing))]
fn drawing() -> &'static str
    ensures { result.now ≡ drawing }
{
    DRAWING
}

/// What a reader does with it.
#[tactic(auto, unfolding(crate::specs::Data::hands))]
fn hands() -> &'static str
    ensures { result.now ≡ hands }
{
    HANDS
}

/// The JSON text of a model.
fn json_of(alloc: Global, page: &Page) -> Result<Vec<u8>, AllocError>
    ensures { IfOk result (λ json. json.items ≡ print (page_tokens page.now)) }
{
    let mut out = Writer::new(Vec::new(alloc));
    put_page(&mut out, page)?;
    Ok(out.into_inner())
}

/// Adds JSON text, in which each `<` is written by its number.
fn push_safe(bytes: &mut Vec<u8>, json: &[u8]) -> Result<(), AllocError>
    ensures { OnOk result (bytes.new.items ≡ bytes.old.items ++ safe json.now) }
{
    for byte in json {
        push_safe_byte(bytes, *byte)?;
    }
    Ok(())
}

/// Adds a byte of JSON text.
fn push_safe_byte(bytes: &mut Vec<u8>, byte: u8) -> Result<(), AllocError>
    ensures { OnOk result (bytes.new.items ≡ bytes.old.items ++ safe_byte byte) }
{
    if byte == b'<' {
        bytes.extend_from_slice(b"\\u003c")
    } else {
        bytes.push(byte)?;
        Ok(())
    }
}
