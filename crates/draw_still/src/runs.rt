//! The runs of hosts that must have overlapped.
use crate::columns::Columns;
use crate::scene::{Scene, is_drawn, row_of};
use draw_page::{Page, PageAnswer, PageEvent};
use draw_shapes::{escaped, push_bar};
use std::alloc::{AllocError, Global};

/// A run: the place of its first event, and the line of the event at which it is over, where that is known.
#[derive(Clone, Copy, Debug)]
pub(crate) struct Run {
    pub(crate) first: usize,
    pub(crate) over: Option<u64>,
}

/// The runs of a page; none where it shows no runs.
pub(crate) fn runs_of(alloc: Global, page: &Page) -> Result<Vec<Run>, AllocError> {
    let mut runs = Vec::new(alloc);
    let Some(firsts) = &page.moment else {
        return Ok(runs);
    };
    if page.answer != PageAnswer::Definite {
        return Ok(runs);
    }
    for (number, first) in firsts.iter().enumerate() {
        let over = page.over.get(number).copied().unwrap_or(None);
        runs.push(Run {
            first: *first,
            over,
        })?;
    }
    Ok(runs)
}

/// The column where the last of these runs begins: all of them last there.
pub(crate) fn last_begin(columns: &Columns, runs: &[Run]) -> Option<u32> {
    runs.iter().map(|run| columns.of_event(run.first)).max()
}

impl Scene<'_> {
    /// The bars of the runs, over those of the states.
    pub(crate) fn push_runs(&self, alloc: Global, text: &mut String) -> Result<(), AllocError> {
        for run in self.runs {
            if let Some(event) = self.page.events.get(run.first)
                && is_drawn(event)
            {
                self.push_run(alloc, text, *run, event)?;
            }
        }
        Ok(())
    }

    /// The bar of a run, which begins with this event.
    fn push_run(
        &self,
        alloc: Global,
        text: &mut String,
        run: Run,
        event: &PageEvent,
    ) -> Result<(), AllocError> {
        let (begin, end) = (
            self.columns.of_event(run.first),
            self.end_of_run(run, event),
        );
        let lines = lines_of(alloc, event.line, run.over)?;
        let words = escaped(alloc, event.text.as_str())?;
        let tooltip = format!(in alloc; "{lines}: {words}")?;
        push_bar(text, &self.frame, row_of(event), begin, end, true, &tooltip)
    }

    /// The column where a run ends that begins with this event: that of the event at which it is over; the next one
    /// where that event isn't shown; and the last one where it isn't over.
    fn end_of_run(&self, run: Run, event: &PageEvent) -> u32 {
        let of_host = self.history.of_host(event.host);
        match of_host.iter().find(|place| self.is_over(run, **place)) {
            Some(over) => self.columns.of_event(*over),
            None if run.over.is_some() => self.columns.of_event(run.first).saturating_add(1),
            None => u32::MAX,
        }
    }

    /// Whether a run is over at the event of its host that stands at this place: in the line that is told, or, where
    /// none is, at the first one behind its beginning at which the condition doesn't hold.
    fn is_over(&self, run: Run, place: usize) -> bool {
        let Some(event) = self.page.events.get(place) else {
            return false;
        };
        match run.over {
            Some(line) => event.line == line,
            None => place > run.first && !event.holds,
        }
    }
}

/// The lines of a run that begins in this one.
pub(crate) fn lines_of(alloc: Global, line: u64, over: Option<u64>) -> Result<String, AllocError> {
    match over {
        Some(over) => format!(in alloc; "lines {line} to {over}"),
        None => format!(in alloc; "line {line} on"),
    }
}
