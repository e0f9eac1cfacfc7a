//! The tags of snapshots, kept beside the checker that takes them.
ghost use Rattle.std.specs.Prelude.{◌≡◌, ◌==◌, ◌&&◌, ◌++◌, ◌-◌, ◌⊎◌, ◌<◌, List, [], ◌∷◌, Contains, Option};
ghost use Rattle.std.specs.Prelude.{IfOk, OnOk, OnErr, find, length, take};
ghost use Rattle.std.specs.Option.{option_map};

use crate::questions::Questions;
use crate::spent::drop_spent;
use std::alloc::{AllocError, Global};
use std::marker::Model;
use wcp_saved::Tagged;

/// How many tags there are at least before the spent ones are dropped.
const FIRST_ROOM: usize = 64;

/// The tags of snapshots that may be in the cut.
///
/// A contract sees it as their list, whose order means nothing.
#[derive(Drop)]
pub struct Shelf {
    tags: Vec<Tagged>,
    room: usize,
}

impl Model for Shelf {
    ghost use Rattle.std.specs.Prelude.{List};
    ghost use Rattle.wcp_saved.specs.declared.watch.Tagged.{Tagged};

    ghost Value = { List Tagged };

    ghost view = { λ shelf. shelf.tags.items };
}

impl Shelf {
    ghost use Rattle.std.specs.Prelude.{All};
    ghost use Rattle.wcp_c.specs.Questions.{checkers_of};
    ghost use Rattle.wcp_c.specs.Tags.{IsSpent};
    ghost use Rattle.wcp_saved.specs.declared.watch.Tagged.{Tagged as Noted};

    /// An empty shelf.
    pub fn new(alloc: Global) -> Shelf
        ensures { result ≡ [] }
    {
        Shelf {
            tags: Vec::new(alloc),
            room: FIRST_ROOM,
        }
    }

    /// A shelf with these tags.
    pub fn of(tags: Vec<Tagged>) -> Shelf
        ensures { result ≡ tags.items }
    {
        let room = tags.len().saturating_mul(2).max(FIRST_ROOM);
        Shelf { tags, room }
    }

    /// The tags. `Err` where memory runs out.
    pub fn to_tags(&self, alloc: Global) -> Result<Vec<Tagged>, AllocError>
        ensures { IfOk result (λ tags. tags.items ≡ self.now) }
    {
        let mut tags = Vec::with_capacity(alloc, self.tags.len())?;
        for tagged in &self.tags {
            tags.push(*tagged)?;
        }
        Ok(tags)
    }

    /// Adds a tag. `Err` where memory runs out: nothing has changed.
    pub fn push(&mut self, tagged: Tagged) -> Result<(), AllocError>
        ensures ok { OnOk result (self.new ≡ self.old ++ tagged ∷ []) }
        ensures err { OnErr result (self.new ≡ self.old) }
    {
        self.tags.push(tagged)?;
        Ok(())
    }

    /// Takes the last tag away again.
    pub fn pop(&mut self)
        ensures { self.new ≡ take (length self.old - 1) self.old }
    {
        let _last = self.tags.pop();
    }

    /// The tag of the snapshot of process `p` in this interval.
    pub fn find(&self, p: u32, interval: u32) -> Option<u64>
        ensures { result ≡ option_map (λ tagged. tagged.tag)
            (find (λ tagged. (tagged.process == p) && (tagged.interval == interval)) self.now) }
    {
        self.tags
            .iter()
            .find(|tagged| tagged.process == p && tagged.interval == interval)
            .map(|tagged| tagged.tag)
    }

    /// Once the shelf is full, drops the tags that can't be asked for any more.
    pub fn drop_spent(&mut self, questions: &Questions)
        ensures right { (tagged : Noted) → Contains self.new tagged → Contains self.old tagged }
        ensures kept { (tagged : Noted) → Contains self.old tagged
            → Contains self.new tagged ⊎ All (λ checker. IsSpent checker tagged) (checkers_of questions.now) }
    {
        if self.tags.len() < self.room {
            return;
        }
        drop_spent(&mut self.tags, questions);
        self.room = self.tags.len().saturating_mul(2).max(FIRST_ROOM);
    }
}
