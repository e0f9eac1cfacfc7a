//! Texts within an element of HTML.
ghost use Rattle.std.specs.Prelude.{◌≡◌, ◌++◌, OnOk};
ghost use Rattle.draw_page.specs.Data.{html, html_byte};

use std::alloc::AllocError;

/// Adds a text, as HTML writes it within an element.
pub(crate) fn push_html(bytes: &mut Vec<u8>, text: &[u8]) -> Result<(), AllocError>
    ensures { OnOk result (bytes.new.items ≡ bytes.old.items ++ html text.now) }
{
    for byte in text {
        push_html_byte(bytes, *byte)?;
    }
    Ok(())
}

/// Adds a byte of a text, as HTML writes it within an element.
fn push_html_byte(bytes: &mut Vec<u8>, byte: u8) -> Result<(), AllocError>
    ensures { OnOk result (bytes.new.items ≡ bytes.old.items ++ html_byte byte) }
{
    match byte {
        b'<' => bytes.extend_from_slice(b"&lt;")?,
        b'&' => bytes.extend_from_slice(b"&amp;")?,
        _ => bytes.push(byte)?,
    }
    Ok(())
}
