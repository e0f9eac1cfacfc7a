//! In which columns events stand.
use crate::history::History;
use crate::knowing::{known, known_of_all, own};
use crate::sources::sources;
use draw_page::PageEvent;
use std::alloc::{AllocError, Global};

/// An arrow, from the event at one place to the one at another.
#[derive(Clone, Copy, Debug)]
pub(crate) struct Arrow {
    pub(crate) from: usize,
    pub(crate) to: usize,
}

/// Where events stand, and what they are told by which.
#[derive(Debug, Drop)]
pub(crate) struct Columns {
    /// For each event its column, from 1.
    pub(crate) of_events: Vec<u32>,
    /// The arrows.
    pub(crate) arrows: Vec<Arrow>,
    /// The column of the moment's line: all that comes before the moment, its members too, stands left of it, and all
    /// else right.
    pub(crate) line: u32,
}

impl Columns {
    /// The columns of events about a moment, or without one: each event stands right of all that happened before it,
    /// and as far left as that allows. `Err` where memory runs out.
    pub(crate) fn of(
        alloc: Global,
        events: &[PageEvent],
        history: &History,
        moment: &[usize],
    ) -> Result<Columns, AllocError> {
        let order = in_order(alloc, events)?;
        let mut columns = Columns {
            of_events: vec![in alloc; 0; events.len()]?,
            arrows: Vec::new(alloc),
            line: 0,
        };
        columns.stand(alloc, events, history, &order, moment, true)?;
        columns.line = columns.last().saturating_add(1);
        columns.stand(alloc, events, history, &order, moment, false)?;
        Ok(columns)
    }

    /// The last column that anything stands in.
    pub(crate) fn last(&self) -> u32 {
        self.of_events.iter().copied().max().unwrap_or(0)
    }

    /// The column of the event at this place.
    pub(crate) fn of_event(&self, place: usize) -> u32 {
        self.of_events.get(place).copied().unwrap_or(0)
    }

    /// Places the events that come before the moment, or all others, behind the line so far.
    fn stand(
        &mut self,
        alloc: Global,
        events: &[PageEvent],
        history: &History,
        order: &[usize],
        moment: &[usize],
        before: bool,
    ) -> Result<(), AllocError> {
        for place in order {
            let Some(event) = events.get(*place) else {
                return Ok(());
            };
            if comes_before(events, moment, event) == before {
                self.stand_one(alloc, events, history, *place, event)?;
            }
        }
        Ok(())
    }

    /// Places an event right of the line so far and of what it comes behind.
    fn stand_one(
        &mut self,
        alloc: Global,
        events: &[PageEvent],
        history: &History,
        place: usize,
        event: &PageEvent,
    ) -> Result<(), AllocError> {
        let mut left = self.line;
        if let Some(previous) = history.previous(event.host, place) {
            left = left.max(self.of_event(previous));
        }
        for from in &sources(alloc, events, history, place)? {
            left = left.max(self.of_event(*from));
            self.arrows.push(Arrow {
                from: *from,
                to: place,
            })?;
        }
        if let Some(column) = self.of_events.get_mut(place) {
            *column = left.saturating_add(1);
        }
        Ok(())
    }
}

/// The places of events in an order in which each comes behind all that happened before it.
fn in_order(alloc: Global, events: &[PageEvent]) -> Result<Vec<usize>, AllocError> {
    let mut keyed = Vec::with_capacity(alloc, events.len())?;
    for (place, event) in events.iter().enumerate() {
        keyed.push((known_of_all(event), place))?;
    }
    keyed.sort()?;
    let mut order = Vec::with_capacity(alloc, keyed.len())?;
    for (_, place) in &keyed {
        order.push(*place)?;
    }
    Ok(order)
}

/// Whether an event is a member of a moment or happened before one.
fn comes_before(events: &[PageEvent], moment: &[usize], event: &PageEvent) -> bool {
    let own = own(event);
    moment.iter().any(|member| match events.get(*member) {
        Some(member) => known(member, event.host) >= own,
        None => false,
    })
}
