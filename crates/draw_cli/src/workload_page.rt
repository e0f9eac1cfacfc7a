//! The page of a workload.
ghost use Rattle.std.specs.Prelude.{◌≡◌, ◌∷◌, ◌++◌, [], string_bytes, IfOk};
ghost use Rattle.draw_picture.specs.Picture.{found_text};
ghost use Rattle.draw_cli.specs.Pages.{IsPageOf, IsPageWords};

use crate::page_parts::{events_of, hosts_of, messages_of, places_of};
use crate::shown::{Shown, members};
use crate::tracking::{Tracked, track};
use draw_layout::Layout;
use draw_page::{Page, PageAnswer, PageHost, PageQuestion, page};
use draw_picture::found;
use draw_shapes::Name;
use std::alloc::{AllocError, Global};
use wcp_model::{GlobalCut, Task, Workload};

/// What a call says of a page.
#[derive(Clone, Copy, Debug)]
pub struct PageWords<'a> {
    /// The name of the file that the workload stands in, and nothing for standard input.
    pub title: &'a str,
    /// How many events are shown at most; all where it isn't said.
    pub events: Option<u32>,
}

/// The page of a workload, by a fit order of its tasks and the layout of it about this cut. The first task stands in
/// this line of the text.
pub(crate) fn page_of_workload(
    alloc: Global,
    words: PageWords<'_>,
    first_line: u64,
    names: &[Name],
    workload: &Workload,
    order: &[Task],
    layout: &Layout,
    cut: &Option<GlobalCut>,
) -> Result<Vec<u8>, AllocError>
    ensures { IfOk result (λ bytes. IsPageOf cut.now bytes.items) }
{
    let tracked = track(alloc, &workload.tasks, order, layout)?;
    let hosts = hosts_of(alloc, names, &workload.plan.watched)?;
    let model = model_of(alloc, words, first_line, hosts, &tracked, cut)?;
    let bytes = page(alloc, &model)?;
    Ok(bytes)
}

/// What the page of these tasks shows.
fn model_of(
    alloc: Global,
    words: PageWords<'_>,
    first_line: u64,
    hosts: Vec<PageHost>,
    tracked: &[Tracked],
    cut: &Option<GlobalCut>,
) -> Result<Page, AllocError>
    ensures { IfOk result (IsPageWords cut.now) }
{
    let told = words_of(alloc, cut)?;
    let moment = members(alloc, tracked, cut)?;
    let shown = Shown::of(alloc, tracked.len(), words.events, &moment)?;
    let events = events_of(alloc, first_line, &hosts, tracked, &shown)?;
    let messages = messages_of(alloc, tracked, &shown)?;
    Ok(Page {
        program: String::from_str(alloc, "wcpdraw")?,
        title: String::from_str(alloc, words.title)?,
        asks: PageQuestion::AllHosts,
        answer: answer_of(cut),
        words: told,
        hosts,
        events,
        moment: moment_of(places_of(alloc, &moment, &shown)?),
        over: Vec::new(alloc),
        left_out: shown.left_out(tracked.len()),
        messages: Some(messages),
        question: String::new(alloc),
        others: Vec::new(alloc),
    })
}

/// What the program says of the cut.
fn words_of(alloc: Global, cut: &Option<GlobalCut>) -> Result<String, AllocError>
    ensures { IfOk result (λ words. string_bytes words ≡ found_text cut.now ++ 10 ∷ []) }
{
    let mut words = found(alloc, cut)?;
    words.push_str("\n")?;
    Ok(words)
}

/// What is answered.
fn answer_of(cut: &Option<GlobalCut>) -> PageAnswer {
    if cut.is_some() {
        PageAnswer::Found
    } else {
        PageAnswer::NoMoment
    }
}

/// The places of a moment, if it has any.
fn moment_of(places: Vec<usize>) -> Option<Vec<usize>> {
    if places.is_empty() {
        None
    } else {
        Some(places)
    }
}
