//! The picture of a page's events.
ghost use Rattle.std.specs.Prelude.{◌≡◌, ◌≤◌, length, string_bytes, IfOk};
ghost use Rattle.draw_still.specs.Still.{IsStillOf};

use crate::columns::Columns;
use crate::history::History;
use crate::runs::{Run, last_begin, lines_of, runs_of};
use crate::scene::Scene;
use draw_page::{Page, PageEvent, answer_name};
use draw_shapes::{
    Frame, MOST_ROWS, Mark, Name, escaped, head_of, picture_height, push_left_out, push_legend,
};
use std::alloc::{AllocError, Global};

/// The picture of a page's events about its moment or its runs, or of the first ones where there are none: the text of
/// an SVG document. At most so many columns are drawn, and the first 100 hosts. `Err` where memory runs out.
pub fn still(alloc: Global, page: &Page, most_columns: u32) -> Result<String, AllocError>
    ensures { IfOk result (λ picture. IsStillOf page.now (string_bytes picture)) }
{
    let runs = runs_of(alloc, page)?;
    let moment = moment_of(page, &runs);
    let history = History::of(alloc, page.hosts.len(), &page.events)?;
    let columns = Columns::of(alloc, &page.events, &history, moment)?;
    let names = names(alloc, page)?;
    let scene = Scene {
        page,
        moment,
        runs: &runs,
        history: &history,
        columns: &columns,
        frame: frame_of(&names, most_columns, &columns, moment, &runs),
    };
    let left_out = left_out(&scene);
    let marks = marks(alloc, left_out, &scene)?;
    let answer = answer_name(page.answer);
    let members = members(alloc, &scene)?;
    let head = head(alloc, &scene, marks.len(), answer, members.as_str())?;
    let shapes = scene.shapes(alloc, &names)?;
    let notes = notes(alloc, &scene, left_out, &marks)?;
    format!(in alloc;
        "{head}<text class=\"found\" x=\"14\" y=\"22\">{answer}{members}</text>\n{shapes}{notes}</svg>\n"
    )
}

/// The places of the moment's members; none where the page shows runs, or no moment.
fn moment_of<'p>(page: &'p Page, runs: &[Run]) -> &'p [usize] {
    match &page.moment {
        Some(moment) if runs.is_empty() => moment.as_slice(),
        _ => &[],
    }
}

/// The names of the hosts that are drawn.
fn names(alloc: Global, page: &Page) -> Result<Vec<Name>, AllocError> {
    let mut names = Vec::new(alloc);
    for host in page.hosts.iter().take(MOST_ROWS as usize) {
        names.push(Name::new(alloc, host.name.as_str())?)?;
    }
    Ok(names)
}

/// The frame of columns, about the moment's line or the column where the last run begins, or without these.
fn frame_of(
    names: &[Name],
    most_columns: u32,
    columns: &Columns,
    moment: &[usize],
    runs: &[Run],
) -> Frame {
    let widest = names.iter().map(|name| name.width()).max().unwrap_or(0);
    let rows = names.len().min(MOST_ROWS as usize) as u32;
    if moment.is_empty() {
        let middle = last_begin(columns, runs);
        return Frame::about(rows, widest, most_columns, columns.last(), middle);
    }
    let last = columns.last().max(columns.line);
    Frame::about(rows, widest, most_columns, last, Some(columns.line))
}

/// What stands before the shapes of a picture with a legend of so many.
fn head(
    alloc: Global,
    scene: &Scene<'_>,
    marks: usize,
    answer: &str,
    members: &str,
) -> Result<String, AllocError>
    requires { marks ≤ 6 }
{
    let hosts = scene.page.hosts.len();
    let title = format!(in alloc; "A log of {hosts} hosts: {answer}{members}")?;
    head_of(
        alloc,
        &scene.frame,
        picture_height(&scene.frame, marks),
        &title,
    )
}

/// How many events stand left of the columns that are drawn, and right of them: of those of the page, and left of these
/// also the ones that the page leaves out.
fn left_out(scene: &Scene<'_>) -> (usize, usize) {
    let (left, right) = scene.frame.left_out(&scene.columns.of_events);
    let far = scene.page.events.iter().filter(|event| event.far).count();
    let before = scene.page.left_out.before.saturating_sub(far as u64);
    (left.saturating_add(before as usize), right)
}

/// The kinds of shapes.
fn marks(
    alloc: Global,
    left_out: (usize, usize),
    scene: &Scene<'_>,
) -> Result<Vec<Mark>, AllocError>
    ensures { IfOk result (λ marks. length marks.items ≤ 6) }
{
    let mut marks = Vec::with_capacity(alloc, 6)?;
    marks.push(Mark::True)?;
    if !scene.moment.is_empty() {
        marks.push(Mark::Member)?;
        marks.push(Mark::Moment)?;
    }
    if !scene.runs.is_empty() {
        marks.push(Mark::Run)?;
    }
    marks.push(Mark::Message)?;
    if left_out.0 > 0 || left_out.1 > 0 {
        marks.push(Mark::Far)?;
    }
    Ok(marks)
}

/// What is left out, and the legend.
fn notes(
    alloc: Global,
    scene: &Scene<'_>,
    left_out: (usize, usize),
    marks: &[Mark],
) -> Result<String, AllocError>
    requires { length marks.now ≤ 6 }
{
    let mut text = String::new(alloc);
    push_left_out(&mut text, &scene.frame, left_out)?;
    push_legend(&mut text, &scene.frame, marks)?;
    Ok(text)
}

/// The host and the line of each member of a moment, or the host and the lines of each run; nothing where there are
/// none.
fn members(alloc: Global, scene: &Scene<'_>) -> Result<String, AllocError> {
    let mut text = String::new(alloc);
    for member in scene.moment {
        if let Some(event) = scene.page.events.get(*member) {
            let lines = format!(in alloc; "line {}", event.line)?;
            push_member(alloc, &mut text, scene.page, event, lines.as_str())?;
        }
    }
    for run in scene.runs {
        if let Some(event) = scene.page.events.get(run.first) {
            let lines = lines_of(alloc, event.line, run.over)?;
            push_member(alloc, &mut text, scene.page, event, lines.as_str())?;
        }
    }
    Ok(text)
}

/// Adds the host of a member of a moment or of a run, and these words of its lines, as the next one or the first.
fn push_member(
    alloc: Global,
    text: &mut String,
    page: &Page,
    event: &PageEvent,
    lines: &str,
) -> Result<(), AllocError> {
    let Some(host) = page.hosts.get(event.host) else {
        return Ok(());
    };
    let mark = if text.is_empty() { ":" } else { "," };
    let name = escaped(alloc, host.name.as_str())?;
    write!(text, "{mark} {name} {lines}")
}
