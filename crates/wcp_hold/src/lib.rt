//! The bounded hold in which a link, an inbox or a relay keeps items, first in, first out.
//!
//! What is proved. `Hold` is a list with room for so many, first in, first out: `push` puts at the back, and hands the
//! item back exactly where the hold is full; `pop` takes the first item, `front` reads it, and they give none exactly
//! where there is none.
#![tactic(auto)]

mod hold;

pub use hold::Hold;
