//! The ids that a log sends, each of them once, with the line of the event that sends it.
ghost use Rattle.std.specs.Prelude.{◌≡◌, ℕ, List, Err, None, Some, if◌then◌else◌, map, string_bytes, OnOk, OnErr};
ghost use Rattle.std.specs.HashMap.{get_by_text};
ghost use Rattle.std.specs.Str.{bytes_eq};
ghost use Rattle.trace_order.specs.Messages.{is_among};
ghost use Rattle.trace_order.specs.Ids.{AreNew, HasSecond, is_known, second_in, with_announced, Second};
ghost use Rattle.trace_order.specs.declared.order_fault.PutFault.TheVariants.{Twice};

use crate::order_fault::PutFault;
use crate::second_send::SecondSend;
use std::alloc::Global;
use std::collections::HashMap;

/// Adds the ids that the event of this line sends, each of which has to be new: all of them, or none.
pub(crate) fn announce(
    alloc: Global,
    announced: &mut HashMap<String, u64>,
    ids: &[String],
    line: u64,
) -> Result<(), PutFault>
    ensures new { OnOk result (AreNew (is_known (get_by_text announced.old)) (map string_bytes ids.now)) }
    ensures added { OnOk result ((id : List ℕ) → get_by_text announced.new id
        ≡ with_announced (get_by_text announced.old) line (map string_bytes ids.now) id) }
    ensures twice { (second : Second) → result ≡ Err (Twice second) →
        HasSecond (is_known (get_by_text announced.old)) (map string_bytes ids.now) }
    ensures first { (second : Second) → result ≡ Err (Twice second) →
        second_in (get_by_text announced.old) line (map string_bytes ids.now) ≡ Some second }
    ensures same { OnErr result ((id : List ℕ) → get_by_text announced.new id ≡ get_by_text announced.old id) }
{
    for place in 0..ids.len() {
        if let Err(fault) = announce_one(alloc, announced, ids[place].as_str(), line) {
            retract(announced, &ids[..place]);
            return Err(fault);
        }
    }
    Ok(())
}

/// Adds an id, which has to be new.
fn announce_one(
    alloc: Global,
    announced: &mut HashMap<String, u64>,
    id: &str,
    line: u64,
) -> Result<(), PutFault>
    ensures new { OnOk result (get_by_text announced.old id.now ≡ None) }
    ensures added { OnOk result ((other : List ℕ) → get_by_text announced.new other
        ≡ (if bytes_eq id.now other then Some line else get_by_text announced.old other)) }
    ensures twice { (second : Second) → result ≡ Err (Twice second) →
        (second.id ≡ id.now) × (get_by_text announced.old id.now ≡ Some second.first) }
    ensures same { OnErr result ((other : List ℕ)
        → get_by_text announced.new other ≡ get_by_text announced.old other) }
{
    if let Some(first) = announced.get(id) {
        let id = String::from_str(alloc, id)?;
        return Err(PutFault::Twice(SecondSend::new(id, *first)));
    }
    announced.insert(String::from_str(alloc, id)?, line)?;
    Ok(())
}

/// Takes these ids out again.
pub(crate) fn retract(announced: &mut HashMap<String, u64>, ids: &[String])
    ensures { (id : List ℕ) → get_by_text announced.new id
        ≡ (if is_among id (map string_bytes ids.now) then None else get_by_text announced.old id) }
{
    for id in ids {
        announced.remove(id.as_str());
    }
}
