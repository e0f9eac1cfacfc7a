//! The members of a moment, and where the runs are over that begin with them.
ghost use Rattle.std.specs.Prelude.{OnOk, option_map};
ghost use Rattle.std.specs.List.{flat_map};
ghost use Rattle.draw_page.specs.Adding.{Adds};
ghost use Rattle.draw_page.specs.Model.{line_tokens, members_tokens, moment_tokens, over_tokens, place_tokens};

use json::Writer;
use std::alloc::AllocError;

/// Writes the members of the moment, or the runs.
pub(crate) fn put_members(
    out: &mut Writer,
    moment: &Option<Vec<usize>>,
    over: &[Option<u64>],
) -> Result<(), AllocError>
    ensures { OnOk result (Adds out.old out.new
        (members_tokens (option_map (λ places. places.items) moment.now) over.now)) }
{
    put_moment(out, moment)?;
    put_over(out, over)
}

/// Writes the places of the moment's members.
#[tactic(auto, unfolding(crate::specs::Model::moment_tokens))]
fn put_moment(out: &mut Writer, moment: &Option<Vec<usize>>) -> Result<(), AllocError>
    ensures { OnOk result (Adds out.old out.new (moment_tokens (option_map (λ places. places.items) moment.now))) }
{
    out.key("moment")?;
    let Some(places) = moment else {
        return out.null();
    };
    out.begin_array()?;
    put_places(out, places)?;
    out.end_array()
}

/// Writes the elements of an array of places.
pub(crate) fn put_places(out: &mut Writer, places: &[usize]) -> Result<(), AllocError>
    ensures { OnOk result (Adds out.old out.new (flat_map place_tokens places.now)) }
{
    for place in places {
        out.u64(*place as u64)?;
    }
    Ok(())
}

/// Writes the lines at which runs are over.
#[tactic(auto, unfolding(crate::specs::Model::over_tokens))]
fn put_over(out: &mut Writer, over: &[Option<u64>]) -> Result<(), AllocError>
    ensures { OnOk result (Adds out.old out.new (over_tokens over.now)) }
{
    out.key("over")?;
    out.begin_array()?;
    for line in over {
        put_line(out, *line)?;
    }
    out.end_array()
}

/// Writes a line, or that there is none.
fn put_line(out: &mut Writer, line: Option<u64>) -> Result<(), AllocError>
    ensures { OnOk result (Adds out.old out.new (line_tokens line)) }
{
    match line {
        Some(line) => out.u64(line),
        None => out.null(),
    }
}
