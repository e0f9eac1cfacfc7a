ghost use Rattle.std.specs.Prelude.{◌≡◌, IfOk};
ghost use Rattle.example_pool.specs.Members.{IsPool};
ghost use Rattle.wcp_model.specs.Watched.{AreAllWatched};
ghost use Rattle.wcp_model.specs.declared.flag.Flag.TheVariants as reset_at;

use crate::dispatcher::{Dispatcher, Pace, Partner, Partners, REPLICAS};
use crate::member::PoolMember;
use crate::replica::Replica;
use crossbeam_channel::bounded;
use std::alloc::{AllocError, Global};
use wullaphi::{Parent, Plan, Watched};

/// Two leaf relays under another: the one serves the dispatcher and replica 1, the other replicas 2 and 3.
pub(crate) fn pool_plan(alloc: Global) -> Result<Plan, AllocError>
    ensures processes { IfOk result (λ plan. plan.n ≡ 4) }
    ensures watched { IfOk result (λ plan. AreAllWatched 4 plan.watched) }
    ensures flag { IfOk result (λ plan. plan.flag ≡ reset_at.Event) }
{
    Ok(Plan::new(
        4,
        8,
        4,
        vec![in alloc; Parent::Root, Parent::Relay(0), Parent::Relay(0)]?,
        vec![in alloc; Some(1), Some(1), Some(2), Some(2)]?,
        Watched::all(4),
    ))
}

/// The members of the pool, by the numbers of their processes, and the channels between them: to and from each replica,
/// with room for one message. This replica vanishes at its first job, if one is named.
pub(crate) fn open_members(
    alloc: Global,
    pace: Pace,
    rounds: u16,
    vanishing: Option<u32>,
) -> Result<Vec<PoolMember>, AllocError>
    ensures { IfOk result (λ members. IsPool pace rounds members.items) }
{
    let mut partners = Vec::with_capacity(alloc, REPLICAS as usize)?;
    let mut members = Vec::with_capacity(alloc, REPLICAS as usize)?;
    for place in 0..REPLICAS {
        let (to_replica, jobs) = bounded(alloc, 1)?;
        let (answers, from_replica) = bounded(alloc, 1)?;
        partners.push(Partner {
            replica: place + 1,
            jobs: to_replica,
            answers: from_replica,
        })?;
        members.push(PoolMember::Replica(Replica {
            jobs,
            answers,
            rounds,
            vanishes: vanishing == Some(place + 1),
        }))?;
    }
    let dispatcher = Dispatcher {
        partners: Partners::new(partners),
        pace,
        rounds,
    };
    members.insert(0, PoolMember::Dispatcher(dispatcher))?;
    Ok(members)
}
