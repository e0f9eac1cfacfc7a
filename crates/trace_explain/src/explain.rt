//! The explanation of what was taken.
ghost use Rattle.std.specs.Prelude.{List, IfOk};
ghost use Rattle.trace_moment.specs.Moment.{Taken};
ghost use Rattle.trace_explain.specs.Reasons.{Explains};
ghost use Rattle.trace_explain.specs.Views.{watched_by, Remembers};

use crate::elimination::{all_states, eliminate, first_without};
use crate::held::held_states;
use crate::history::History;
use crate::left::StatesLeft;
use crate::reason::Explanation;
use std::alloc::AllocError;

impl History {
    /// Why what was taken has its earliest moment, or none. `Err` where memory runs out.
    pub fn explain(&self) -> Result<Explanation, AllocError>
        ensures { (taken : List Taken) → Remembers taken self.now →
            IfOk result (Explains (watched_by self.now) taken) }
    {
        let mut left = all_states(self.alloc, &self.hosts)?;
        eliminate(&mut left)?;
        match first_without(&left) {
            Some(place) => {
                let StatesLeft { over, .. } = left.swap_remove(place);
                Ok(Explanation::NoneLeft { place, over })
            }
            None => Ok(Explanation::Found(held_states(self.alloc, &left)?)),
        }
    }
}
