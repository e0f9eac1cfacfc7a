ghost use Rattle.std.specs.Prelude.{◌≡◌, ◌≢◌, IfOk, OnErr};
ghost use mathlib.Core.List.{IsPrefix};

use crate::putter::PutterEnd;
use crate::taker::RingTaker;
use std::marker::Model;
use std::snapshot::Snapshot;
use thiserror::Error;

/// All that was put into a ring was taken out of it: contracts see it as the list of these notes.
#[derive(Drop)]
pub struct Matched {
    taker: Snapshot<RingTaker>,
}

impl Model for Matched {
    ghost use Rattle.std.specs.Prelude.{List};
    ghost use Rattle.wcp_clock.specs.declared.note.Note.{Note};

    ghost Value = { List Note };

    ghost view = { λ m. m.taker.value.taken };
}

/// Notes were left in the ring.
#[derive(Clone, Copy, Debug, PartialEq, Eq, Error)]
#[error("notes were left in the ring")]
pub struct Unfinished;

/// Compares the two ends of one ring: whether all that was put was taken. Both are gone afterwards.
pub fn match_ends(end: PutterEnd, taker: RingTaker) -> Result<Matched, Unfinished>
    requires one_ring { end.ring ≡ taker.ring }
    ensures matched { IfOk result (λ notes. (notes ≡ end.put) × (notes ≡ taker.taken)) }
    ensures unfinished { OnErr result (taker.taken ≢ end.put) }
    ensures in_order { IsPrefix taker.taken end.put }
{
    let PutterEnd { mut producer } = end;
    let taken = Snapshot::of(&taker);
    let RingTaker {
        mut consumer,
        bell: _,
    } = taker;
    if consumer.slots_beside(&mut producer) > 0 {
        return Err(Unfinished);
    }
    Ok(Matched { taker: taken })
}
