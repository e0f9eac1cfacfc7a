//! The shapes of a page's events.
use crate::columns::Columns;
use crate::history::History;
use crate::runs::Run;
use draw_page::{HostRule, Page, PageEvent};
use draw_shapes::{
    Frame, MOST_ROWS, Name, Place, escaped, push_arrow, push_bar, push_dot, push_moment,
    push_number, push_row, push_spot,
};
use std::alloc::{AllocError, Global};

/// The events of a page, and where they stand.
#[derive(Drop)]
pub(crate) struct Scene<'p> {
    pub(crate) page: &'p Page,
    /// The places of the moment's members; none where there is no moment.
    pub(crate) moment: &'p [usize],
    /// The runs; none where there is a moment.
    pub(crate) runs: &'p [Run],
    pub(crate) history: &'p History,
    pub(crate) columns: &'p Columns,
    pub(crate) frame: Frame,
}

impl Scene<'_> {
    /// The shapes of all hosts and events, and of the moment, where the hosts have these names.
    pub(crate) fn shapes(&self, alloc: Global, names: &[Name]) -> Result<String, AllocError> {
        let mut text = String::new(alloc);
        for row in 0..self.frame.rows() {
            if let Some(name) = names.get(row as usize) {
                push_row(&mut text, &self.frame, row, name)?;
            }
        }
        self.push_states(alloc, &mut text)?;
        self.push_runs(alloc, &mut text)?;
        self.push_arrows(alloc, &mut text)?;
        self.push_dots(alloc, &mut text)?;
        if !self.moment.is_empty() {
            self.push_moment(&mut text)?;
        }
        Ok(text)
    }

    /// The states in which conditions hold.
    fn push_states(&self, alloc: Global, text: &mut String) -> Result<(), AllocError> {
        for (place, event) in self.page.events.iter().enumerate() {
            if event.holds && is_drawn(event) {
                self.push_state(alloc, text, place, event)?;
            }
        }
        Ok(())
    }

    /// The state that begins with the event at this place.
    fn push_state(
        &self,
        alloc: Global,
        text: &mut String,
        place: usize,
        event: &PageEvent,
    ) -> Result<(), AllocError> {
        let (row, column) = (row_of(event), self.columns.of_event(place));
        let is_member = self.moment.iter().any(|member| *member == place);
        let tooltip = tooltip_of(alloc, event)?;
        if self.holds_at_events(event.host) {
            return push_spot(text, &self.frame, row, column, is_member, &tooltip);
        }
        let end = self.end_of(place, event);
        push_bar(text, &self.frame, row, column, end, is_member, &tooltip)
    }

    /// The column where the state ends that begins with the event at this place: that of the host's next event. Of a
    /// far one the next event isn't shown, but it lasts up to the moment.
    fn end_of(&self, place: usize, event: &PageEvent) -> u32 {
        if event.far {
            return self.columns.line;
        }
        match self.history.next(event.host, place) {
            Some(next) => self.columns.of_event(next),
            None => u32::MAX,
        }
    }

    /// Whether a host's condition holds at events alone.
    fn holds_at_events(&self, host: usize) -> bool {
        let Some(host) = self.page.hosts.get(host) else {
            return false;
        };
        match &host.watch {
            Some(watch) => watch.rule == HostRule::At,
            None => false,
        }
    }

    /// The arrows.
    fn push_arrows(&self, alloc: Global, text: &mut String) -> Result<(), AllocError> {
        let events = &self.page.events;
        for arrow in &self.columns.arrows {
            if let (Some(from), Some(to)) = (events.get(arrow.from), events.get(arrow.to))
                && is_drawn(from)
                && is_drawn(to)
            {
                let tooltip = format!(in alloc; "line {} to line {}", from.line, to.line)?;
                let (begin, end) = (self.place_of(from, arrow.from), self.place_of(to, arrow.to));
                push_arrow(text, &self.frame, begin, end, &tooltip)?;
            }
        }
        Ok(())
    }

    /// Where an event stands, which is at this place of the page's.
    fn place_of(&self, event: &PageEvent, place: usize) -> Place {
        Place {
            row: row_of(event),
            column: self.columns.of_event(place),
        }
    }

    /// The dots of the events.
    fn push_dots(&self, alloc: Global, text: &mut String) -> Result<(), AllocError> {
        for (place, event) in self.page.events.iter().enumerate() {
            let column = self.columns.of_event(place);
            if is_drawn(event) && self.frame.shows(column) {
                let tooltip = tooltip_of(alloc, event)?;
                push_dot(text, &self.frame, row_of(event), column, &tooltip)?;
            }
        }
        Ok(())
    }

    /// The line of the moment, with the lines of its members.
    fn push_moment(&self, text: &mut String) -> Result<(), AllocError> {
        push_moment(text, &self.frame, self.columns.line)?;
        for member in self.moment {
            if let Some(event) = self.page.events.get(*member)
                && is_drawn(event)
            {
                push_number(
                    text,
                    &self.frame,
                    self.columns.line,
                    row_of(event),
                    event.line,
                )?;
            }
        }
        Ok(())
    }
}

/// Whether the host of an event is drawn.
pub(crate) fn is_drawn(event: &PageEvent) -> bool {
    event.host < MOST_ROWS as usize
}

/// The row of an event's host.
pub(crate) fn row_of(event: &PageEvent) -> u32 {
    event.host.min(MOST_ROWS as usize) as u32
}

/// The line of an event, as a tooltip says it.
fn tooltip_of(alloc: Global, event: &PageEvent) -> Result<String, AllocError> {
    let (line, text) = (event.line, escaped(alloc, event.text.as_str())?);
    format!(in alloc; "line {line}: {text}")
}
