//! The clocks with which ids were sent.
ghost use Rattle.std.specs.Prelude.{◌≡◌, ℕ, List, Some, None, IfOk, OnOk, OnErr, map, option_map, string_bytes};
ghost use Rattle.std.specs.Prelude.{if◌then◌else◌, is_some, unwrap_or, []};
ghost use Rattle.std.specs.HashMap.{get_by_text};
ghost use Rattle.trace_order.specs.Messages.{is_among};
ghost use Rattle.trace_order.specs.Sent.{seen_sent, sent_with};
ghost use Rattle.trace_order.specs.State.{sent_clock};
ghost use Rattle.trace_order.specs.Waiting.{first_not};

use crate::next_clock::greatest;
use std::alloc::{AllocError, Global};
use std::collections::HashMap;

/// The greatest of the clocks with which these ids were sent, host by host.
pub(crate) fn sent_clock(
    alloc: Global,
    sent: &HashMap<String, Vec<u32>>,
    ids: &[String],
) -> Result<Vec<u32>, AllocError>
    ensures { IfOk result (λ clock. clock.items
        ≡ sent_clock (λ id. option_map (λ clock. clock.items) (get_by_text sent.now id)) (map string_bytes ids.now)) }
{
    let mut clock = Vec::new(alloc);
    for id in ids {
        clock = greatest(alloc, &clock, clock_of(sent, id.as_str()))?;
    }
    Ok(clock)
}

/// The clock with which an id was sent, and an empty one where it wasn't.
fn clock_of<'s>(sent: &'s HashMap<String, Vec<u32>>, id: &str) -> &'s [u32]
    ensures { result.now ≡ unwrap_or (option_map (λ clock. clock.items) (get_by_text sent.now id.now)) [] }
{
    match sent.get(id) {
        Some(clock) => clock.as_slice(),
        None => &[],
    }
}

/// The first of these ids that wasn't sent.
pub(crate) fn first_unsent<'i>(
    sent: &HashMap<String, Vec<u32>>,
    ids: &'i [String],
) -> Option<&'i str>
    ensures { option_map (λ id. id.now) result
        ≡ first_not (λ id. is_some (option_map (λ clock. clock.items) (get_by_text sent.now id)))
        (map string_bytes ids.now) }
{
    for id in ids {
        if !sent.contains_key(id.as_str()) {
            return Some(id.as_str());
        }
    }
    None
}

/// An id that was sent, and the clock of the event that sent it.
#[derive(Drop)]
struct SentId {
    id: String,
    clock: Vec<u32>,
}

/// Notes the clock of the event that sent these ids: of all of them, or of none.
pub(crate) fn note_sent(
    alloc: Global,
    sent: &mut HashMap<String, Vec<u32>>,
    ids: &[String],
    clock: &[u32],
) -> Result<(), AllocError>
    ensures noted { OnOk result ((id : List ℕ) → option_map (λ clock. clock.items) (get_by_text sent.new id)
        ≡ (if is_among id (map string_bytes ids.now) then Some clock.now
        else option_map (λ clock. clock.items) (get_by_text sent.old id))) }
    ensures same { OnErr result ((id : List ℕ) → get_by_text sent.new id ≡ get_by_text sent.old id) }
{
    let mut noted = sent_with(alloc, ids, clock)?;
    sent.reserve(noted.len())?;
    while let Some(SentId { id, clock }) = noted.pop() {
        if sent.insert(id, clock).is_err() {
            unreachable!();
        }
    }
    Ok(())
}

/// Each of these ids with a clock of its own.
fn sent_with(alloc: Global, ids: &[String], clock: &[u32]) -> Result<Vec<SentId>, AllocError>
    ensures { IfOk result (λ noted. map seen_sent noted.items
        ≡ map (sent_with clock.now) (map string_bytes ids.now)) }
{
    let mut noted = Vec::with_capacity(alloc, ids.len())?;
    for id in ids {
        noted.push(SentId {
            id: String::from_str(alloc, id.as_str())?,
            clock: Vec::from_slice(alloc, clock)?,
        })?;
    }
    Ok(noted)
}
