//! Which tasks of a workload a page shows.

use crate::tracking::Tracked;
use draw_page::LeftOut;
use std::alloc::{AllocError, Global};
use wcp_model::{Action, GlobalCut};

/// Of so many events at most this part stands behind the moment.
const PART_BEHIND: usize = 5;

/// The tasks that a page shows: those between two places, and before them the members of the moment that come earlier.
#[derive(Drop)]
pub(crate) struct Shown {
    pub far: Vec<usize>,
    pub start: usize,
    pub end: usize,
}

impl Shown {
    /// So many tasks at most, of which the moment has these: all, the last ones where there is no moment, or else those
    /// about the moment's last member.
    pub fn of(
        alloc: Global,
        tasks: usize,
        most: Option<u32>,
        moment: &[usize],
    ) -> Result<Shown, AllocError> {
        let most = most_of(tasks, most);
        let end = match moment.iter().max() {
            Some(last) if most < tasks => last
                .saturating_add(1)
                .saturating_add(most / PART_BEHIND)
                .min(tasks),
            _ => tasks,
        };
        let start = end.saturating_sub(most);
        let mut far = Vec::new(alloc);
        for place in moment {
            if *place < start {
                far.push(*place)?;
            }
        }
        far.sort()?;
        Ok(Shown { far, start, end })
    }

    /// The place on the page of the task at this place, where it is shown.
    pub fn place_of(&self, task: usize) -> Option<usize> {
        if self.start <= task && task < self.end {
            return Some((task - self.start).saturating_add(self.far.len()));
        }
        self.far.iter().position(|far| *far == task)
    }

    /// What of so many tasks isn't shown.
    pub fn left_out(&self, tasks: usize) -> LeftOut {
        LeftOut {
            before: self.start as u64,
            more: self.end < tasks,
        }
    }
}

/// How many of so many tasks are shown at most.
fn most_of(tasks: usize, most: Option<u32>) -> usize {
    match most {
        Some(most) => most as usize,
        None => tasks,
    }
}

/// The places of the cut's members: of each process that has one, its first true observation in the interval.
pub(crate) fn members(
    alloc: Global,
    tracked: &[Tracked],
    cut: &Option<GlobalCut>,
) -> Result<Vec<usize>, AllocError> {
    let mut places = Vec::new(alloc);
    let Some(cut) = cut else {
        return Ok(places);
    };
    for p in 0..cut.len() {
        if let Some(place) = member(tracked, p, cut.get(p)) {
            places.push(place)?;
        }
    }
    Ok(places)
}

/// The place of the first true observation of a process in this interval, if one is named.
fn member(tracked: &[Tracked], p: u32, interval: Option<u32>) -> Option<usize> {
    let interval = interval?;
    tracked.iter().position(|one| {
        one.task.p == p && one.interval == interval && one.task.action == Action::Observe(true)
    })
}
