//! The program `wcpdraw` as a function from words and bytes to bytes and a status.
//!
//! What is proved. `drive`, over a reader and a writer that tell their bytes: on status 0 or 1 exactly the answer to
//! one request was appended to the output, and nothing to the errors; on status 2 nothing was printed, or a prefix of
//! the answer where a write failed; on status 141, which comes only where a write failed, a prefix of the answer was
//! appended, and nothing to the errors. Where the request is for a picture, the whole input spells a workload, and the
//! answer is a picture of it, as `sketch` says, with as many names as it has processes or with none given: 0 exactly
//! where it shows a cut, and 1 where there is none. Help and the version read nothing. `obey`, of each request: these
//! answers; and which fault is told, of the input, the text or its names. To a request that isn't known nothing is
//! printed, the fault is that of usage, and the status 2.
//!
//! `sketch`: a picture is that of the workload that the text spells, in one of its fit orders, of a layout about its
//! least cut, or about none where no satisfying cut exists. It tells this cut, or that there is none, and whether
//! there is one is told beside it. A page is as a picture: its words tell the cut. A text is refused for the fault that
//! it has, and a list of names where it has an empty name, or another number of names than the workload that the text
//! spells has processes; else there is a picture, unless memory runs out.
//!
//! Tested, and said by no clause: which words make which request, the line on words that ask for nothing that the
//! program knows, that the reader reads the file that they name, that 141 is given exactly where the writer's fault is
//! a closed pipe, the text of help, how the layout is drawn, as `draw_picture` says, which events a page shows, and
//! that each process has its own name, of a list or by number.
#![tactic(auto)]

mod fault;
mod help;
mod naming;
mod page_parts;
mod picture;
mod program;
mod shown;
mod sketch_fault;
mod sketching;
mod tracking;
mod words;
mod workload_page;

pub use fault::DrawFault;
pub use picture::Picture;
pub use program::{drive, refuse};
pub use sketch_fault::SketchFault;
pub use sketching::{DrawForm, sketch};
pub use words::{DrawRequest, PictureWords, read_words};
pub use workload_page::PageWords;
