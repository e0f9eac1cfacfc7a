//! The picture of a text.
ghost use Rattle.std.specs.Prelude.{◌≡◌, ◌≤◌, length, option_map, All, IfOk, IfErr, MatchOption};
ghost use Rattle.wcp_clock.specs.Limits.{most_processes, most_steps};
ghost use Rattle.wcp_model.specs.Watched.{AreSomeWatched};
ghost use Rattle.wcp_model.specs.WorkloadComputation.{CouldBeRead, IsFitOrder, IsWithin};
ghost use Rattle.draw_layout.specs.Layout.{IsLayout};
ghost use Rattle.draw_cli.specs.SketchFaults.{IsWhy};
ghost use Rattle.draw_cli.specs.Sketches.{IsDrawing, IsPictureOf, IsSketchOf, is_page};

use crate::naming::names_of;
use crate::picture::Picture;
use crate::sketch_fault::SketchFault;
use crate::tracking::lines_of;
use crate::workload_page::{PageWords, page_of_workload};
use draw_layout::{Layout, lay_out};
use draw_picture::{Look, draw};
use draw_shapes::Name;
use std::alloc::{AllocError, Global};
use wcp_model::{GlobalCut, Task, Workload};
use wcp_script::{read_ordered, single_in_order};

/// What is drawn.
#[derive(Clone, Copy, Debug)]
pub enum DrawForm<'a> {
    /// A picture: an SVG document, of so many columns at most.
    Svg(u32),
    /// A page: an HTML file.
    Page(PageWords<'a>),
}

/// The bytes of what is drawn of a layout. The first task stands in this line of the text.
fn drawing(
    alloc: Global,
    form: DrawForm<'_>,
    first_line: u64,
    names: &[Name],
    workload: &Workload,
    order: &[Task],
    layout: &Layout,
    cut: &Option<GlobalCut>,
) -> Result<Vec<u8>, AllocError>
    requires few { length names.now ≤ most_processes }
    requires few_tasks { length order.now ≤ most_steps }
    requires within { All (IsWithin (length names.now)) order.now }
    requires layout { IsLayout (length names.now) order.now cut.now layout.now }
    requires members { MatchOption cut.now (Unit {0}) (λ cut. length cut ≡ length names.now) }
    ensures { IfOk result (λ bytes. IsDrawing (is_page form.entry) (length names.now) order.now cut.now layout.now
        bytes.items) }
{
    match form {
        DrawForm::Svg(most_columns) => {
            let lines = lines_of(alloc, first_line, &workload.tasks, order)?;
            let look = Look {
                most_columns,
                lines: &lines,
            };
            Ok(draw(alloc, names, &look, order, layout, cut)?.into_bytes())
        }
        DrawForm::Page(words) => page_of_workload(
            alloc, words, first_line, names, workload, order, layout, cut,
        ),
    }
}

/// What is drawn of a workload that has this fit order of its tasks, of which the first stands in this line of the
/// text. `Err` where memory runs out.
fn sketch_in_order(
    alloc: Global,
    form: DrawForm<'_>,
    first_line: u64,
    names: &[Name],
    workload: &Workload,
    order: &[Task],
) -> Result<Picture, AllocError>
    requires read { CouldBeRead workload.now.plan.n workload.now.tasks.items }
    requires watched { AreSomeWatched workload.now.plan.n workload.now.plan.watched }
    requires fit { IsFitOrder workload.now.tasks.items order.now }
    requires names { length names.now ≡ workload.now.plan.n }
    ensures { IfOk result (λ picture. IsPictureOf (is_page form.entry) workload.now.plan.n workload.now.plan.watched
        workload.now.plan.flag workload.now.tasks.items picture.bytes.items picture.found) }
{
    let outcome = single_in_order(alloc, workload, order)?;
    let cut = outcome.report.cut();
    let layout = lay_out(alloc, workload.plan.n, order, &cut)?;
    let bytes = drawing(
        alloc, form, first_line, names, workload, order, &layout, &cut,
    )?;
    Ok(Picture {
        bytes,
        found: cut.is_some(),
    })
}

/// What is drawn of the workload that a text spells: a picture or a page about its least cut, if it has one.
///
/// Its processes have the names that stand between the commas of a list, or `process 0` and so on where there is no
/// list. `Err` says why there is none. A text is refused before its names are looked at.
pub fn sketch(
    alloc: Global,
    form: DrawForm<'_>,
    names: Option<&str>,
    text: &[u8],
) -> Result<Picture, SketchFault>
    ensures picture { IfOk result (λ picture. IsSketchOf (is_page form.entry) (option_map (λ list. list.now) names.entry)
        text.now picture.bytes.items picture.found) }
    ensures fault { IfErr result (IsWhy (option_map (λ list. list.now) names.entry) text.now) }
{
    let read = read_ordered(alloc, text)?;
    let names = names_of(alloc, names, read.workload.plan.n)?;
    let first_line = first_line_of(text, read.workload.tasks.len());
    Ok(sketch_in_order(
        alloc,
        form,
        first_line,
        &names,
        &read.workload,
        read.in_order(),
    )?)
}

/// The line in which the first of so many tasks stands, which are the last lines of a text.
fn first_line_of(text: &[u8], tasks: usize) -> u64 {
    let lines = text.iter().filter(|byte| **byte == b'\n').count();
    (lines.saturating_sub(tasks) as u64).saturating_add(1)
}
