ghost use Rattle.std.specs.Prelude.{◌≡◌, ◌<◌, ◌≤◌, [], IfOk};
ghost use Rattle.wcp_clock.specs.Limits.{most_cap};

use crate::putter::{RingPutter, half_of_room};
use crate::taker::RingTaker;
use rtrb::RingBuffer;
use std::alloc::{AllocError, Global};

/// A new ring with room for `cap` notes. All its memory is taken here; `Err` where memory runs out.
pub fn ring(alloc: Global, cap: u32) -> Result<(RingPutter, RingTaker), AllocError>
    requires some { 0 < cap }
    requires within { cap ≤ most_cap }
    ensures one_ring { IfOk result (λ ends. ends.0.ring ≡ ends.1.ring) }
    ensures putter { IfOk result (λ ends. (ends.0.put ≡ []) × (ends.0.free ≡ cap)) }
    ensures taker { IfOk result (λ ends. (ends.1.taken ≡ []) × (ends.1.seen ≡ [])) }
{
    let (producer, consumer) = RingBuffer::new(alloc, cap as usize)?;
    let until_rouse = half_of_room(&producer);
    let putter = RingPutter {
        producer,
        late: false,
        until_rouse,
        bell: None,
    };
    let taker = RingTaker {
        consumer,
        bell: None,
    };
    Ok((putter, taker))
}
