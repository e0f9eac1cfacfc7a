ghost use Rattle.std.specs.Prelude.{◌≡◌, ◌<◌, ◌≤◌, count_by, IfOk};
ghost use Rattle.wcp_clock.specs.Limits.{most_processes, most_lane};
ghost use Rattle.wcp_model.specs.WorkloadComputation.{is_send_to};
ghost use Rattle.wcp_worker.specs.Lanes.{IsLaneFor};

use crate::lane_ends::{Inbox, Outbox};
use std::alloc::{AllocError, Global};
use wcp_lane::{LaneFault, Members, lane};
use wcp_model::Action;
use wcp_relay::LiveProbe;

/// Opens a lane by which process `p` can send this many messages to the process of this probe, if it is to send any.
/// The receiver tells its relay of what its probe has put before it sleeps. `Err` where memory runs out.
pub(crate) fn new_lane(
    alloc: Global,
    p: u32,
    count: u32,
    receiver: &LiveProbe,
) -> Result<(Option<Outbox>, Option<Inbox>), AllocError>
    requires numbered { p < most_processes }
    requires few { count ≤ most_lane }
    ensures { IfOk result (λ ends. IsLaneFor p count ends.0 ends.1) }
{
    if count == 0 {
        return Ok((None, None));
    }
    let sleeper = receiver.new_sleeper(alloc)?;
    let bell = sleeper.bell()?;
    match lane(alloc, count, &[Members::none().with(p)]) {
        Ok((mut putters, taker)) => match putters.pop() {
            Some(putter) => {
                let outbox = Outbox {
                    putter,
                    sent: 0,
                    room: count,
                    bell,
                };
                let inbox = Inbox {
                    taker,
                    due: count,
                    sleeper,
                };
                Ok((Some(outbox), Some(inbox)))
            }
            None => unreachable!(),
        },
        Err(LaneFault::NoMemory) => Err(AllocError),
        Err(LaneFault::Cap | LaneFault::MemberSets) => unreachable!(),
    }
}

/// How many of these actions send to process `q`.
pub(crate) fn count_sends(actions: &[Action], q: u32) -> usize
    ensures { result ≡ count_by (is_send_to q) actions.now }
{
    actions
        .iter()
        .filter(|action| matches!(action, Action::Send(to) if *to == q))
        .count()
}
