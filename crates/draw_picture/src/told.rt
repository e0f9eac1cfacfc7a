//! What was found, in words.
ghost use Rattle.std.specs.Prelude.{◌≡◌, ◌++◌, string_bytes, IfOk, OnOk, Some};
ghost use Rattle.draw_picture.specs.Picture.{found_text, interval_text};

use std::alloc::{AllocError, Global};
use wcp_model::GlobalCut;

/// The interval of each process at the cut, or that there is none. `Err` where memory runs out.
pub fn found(alloc: Global, cut: &Option<GlobalCut>) -> Result<String, AllocError>
    ensures { IfOk result (λ text. string_bytes text ≡ found_text cut.now) }
{
    match cut {
        None => String::from_str(alloc, "none"),
        Some(cut) => intervals(alloc, cut),
    }
}

/// The interval of each process at the cut.
fn intervals(alloc: Global, cut: &GlobalCut) -> Result<String, AllocError>
    ensures { IfOk result (λ text. string_bytes text ≡ found_text (Some cut.now)) }
{
    let mut text = String::from_str(alloc, "found")?;
    for p in 0..cut.len() {
        push_interval(&mut text, cut.get(p))?;
    }
    Ok(text)
}

/// The interval that a cut names of a process, or `-` where it names none.
fn push_interval(text: &mut String, interval: Option<u32>) -> Result<(), AllocError>
    ensures { OnOk result (string_bytes text.new ≡ string_bytes text.old ++ interval_text interval) }
{
    match interval {
        None => text.push_str(" -"),
        Some(interval) => write!(text, " {interval}"),
    }
}
