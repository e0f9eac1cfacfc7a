//! Reading an input, whole or line by line, and writing a text whole.
//!
//! What is proved. `read_text`: on `Ok` the text is the whole input of a reader that tells its bytes, which is then at
//! its end, and no longer than a text may be; an input that tells its bytes is refused as too large only where they
//! are more than that. `write_whole`: on `Ok` exactly the text was appended to what a writer holds that tells its
//! bytes; where a write failed, a prefix of it was. Tested alone: `Closed` is answered where the write failed since
//! nobody reads the output any more.
//!
//! `LineReader::advance`: the line that it gives is the first line of what was left of the input, whose other lines
//! are those of what is left then, of a reader that tells its bytes; a line is cut where it has more than 65,537
//! bytes, and only there. At most 65,536 bytes were read and wait to be taken. It gives none only at the end of the
//! input. Where a read failed or memory ran out, what was consumed since the line before stands in the place of the
//! line; nothing waits to be taken after a read that failed, and some bytes do where memory ran out, so that neither
//! fault is answered for the other. `specs/Lines.antt` says which lines a text has.
#![tactic(auto)]

mod block;
mod io_fault;
mod line_fault;
mod line_reader;
mod text_limits;
mod text_reading;
mod text_writing;

pub use io_fault::IoFault;
pub use line_fault::InputFault;
pub use line_reader::{LineReader, MAX_GIVEN};
pub use text_limits::MAX_BYTES;
pub use text_reading::read_text;
pub use text_writing::write_whole;
