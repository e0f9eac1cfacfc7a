ghost use Rattle.std.specs.Prelude.{◌≡◌, ℕ, ◌<◌, ◌↔◌, true, length, IsOk, IfOk};
ghost use Rattle.std.specs.FinSet as set;
ghost use Rattle.wcp_model.specs.LaneRule.{items_from};

use crate::counts::agree;
use crate::fault::Unfinished;
use crate::message::Origin;
use crate::passes::{Compared, Joined};
use crate::putter::{PutReceipt, Putter};
use crate::taker::TakeReceipt;

/// Compares what was put with what was taken, for each number of a putter. `Err` where something that it
/// put wasn't taken.
pub fn reconcile<M: Origin>(
    taken: TakeReceipt<M>,
    put: PutReceipt<M>,
) -> Result<TakeReceipt<M>, Unfinished>
    requires { taken.lane ≡ put.lane }
    ensures exact { IsOk result ↔ ((p : ℕ) → set.contains put.members p ≡ true
        → length (items_from M.origin p taken.taken) ≡ length (items_from M.origin p put.put)) }
    ensures all { IfOk result (λ receipt. (p : ℕ) → set.contains put.members p ≡ true
        → items_from M.origin p taken.taken ≡ items_from M.origin p put.put) }
    ensures receipt { IfOk result (λ receipt.
        receipt ≡ record taken { matched = set.union taken.matched put.members }) }
{
    let PutReceipt { putter } = put;
    let Putter {
        sender,
        pass: putters,
        members: put_members,
        counts: put,
    } = putter;
    let TakeReceipt {
        mut pass,
        members,
        counts,
        matched,
    } = taken;
    if !agree(&put_members, &put, &counts) {
        return Err(Unfinished);
    }
    sender.absorb::<Joined>(&mut pass, putters);
    sender.learn_as::<Compared>(&mut pass);
    Ok(TakeReceipt {
        pass,
        members,
        counts,
        matched: matched.joined(&put_members),
    })
}
