//! A page: one HTML file that shows the events of a log or of a workload, and needs nothing else.
//!
//! What is proved. `page`: the bytes are the page's head, the words of the answer, what stands between, the data and
//! the tail. The words stand there as HTML writes a text, for a reader without scripts; where several questions were
//! asked, those of each stand behind its name. The data is the JSON text of
//! the page's model (`specs/Data.antt`), whose tokens `specs/Model.antt` says, in which each `<` is written by its
//! number. `no_markup`: neither the words nor the data of any model have a byte `<`, so that no text of a log can end
//! the script that the data stands in, or add an element to the page.
//!
//! Said by no clause: what stands around the words and the data, of which `page/` has the source, and how it shows
//! them.
#![tactic(auto)]

mod data;
mod document;
mod event;
mod html;
mod members;
mod message;
mod model;
mod reply;
mod script_drawing;
mod script_hands;
mod script_order;
mod text;
mod words;

pub use data::answer_name;
pub use document::{no_markup, page};
pub use event::{ClockEntry, PageEvent};
pub use message::{MessageEnd, PageMessage};
pub use model::{
    HostRule, HostWatch, LeftOut, Page, PageAnswer, PageHost, PageQuestion, PageReply,
};
