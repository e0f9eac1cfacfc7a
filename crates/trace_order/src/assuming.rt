//! The order in which no event waits for a message that no event sends.
ghost use Rattle.std.specs.Prelude.{◌≡◌, IfOk, filter, map, string_bytes};
ghost use Rattle.std.specs.HashMap.{get_by_text};
ghost use Rattle.trace_order.specs.Assumed.{assumed, assumed_event, assumed_host};
ghost use Rattle.trace_order.specs.Giving.{state_of};
ghost use Rattle.trace_order.specs.Ids.{is_known};

use crate::event::MessageEvent;
use crate::host::MessageHost;
use crate::order::MessageOrder;
use std::alloc::{AllocError, Global};
use std::collections::{HashMap, VecDeque};

impl MessageOrder {
    /// A copy of the order, in which no event waits for a message that no event sends. What orders an event behind such a
    /// sender, which isn't in the log, is left out then.
    pub fn assume_sent(&self) -> Result<MessageOrder, AllocError>
        ensures { IfOk result (λ order. state_of order ≡ assumed (state_of self.now)) }
    {
        Ok(MessageOrder {
            alloc: self.alloc,
            hosts: assumed_hosts(self.alloc, &self.hosts, &self.announced)?,
            announced: self.announced.clone()?,
            sent: self.sent.clone()?,
        })
    }
}

/// Copies of these hosts.
fn assumed_hosts(
    alloc: Global,
    hosts: &[MessageHost],
    announced: &HashMap<String, u64>,
) -> Result<Vec<MessageHost>, AllocError>
    ensures { IfOk result (λ copies. copies.items ≡ map (assumed_host (is_known (get_by_text announced.now))) hosts.now) }
{
    let mut copies = Vec::with_capacity(alloc, hosts.len())?;
    for host in hosts {
        copies.push(host.assumed(alloc, announced)?)?;
    }
    Ok(copies)
}

impl MessageHost {
    /// A copy of the host.
    fn assumed(
        &self,
        alloc: Global,
        announced: &HashMap<String, u64>,
    ) -> Result<MessageHost, AllocError>
        ensures { IfOk result (λ copy. copy ≡ assumed_host (is_known (get_by_text announced.now)) self.now) }
    {
        let mut waits = VecDeque::new(alloc);
        for place in 0..self.waits.len() {
            waits.push_back(self.waits[place].assumed(alloc, announced)?)?;
        }
        Ok(MessageHost {
            name: String::from_str(alloc, self.name())?,
            clock: Vec::from_slice(alloc, self.clock())?,
            waits,
        })
    }
}

impl MessageEvent {
    /// A copy of the event.
    fn assumed(
        &self,
        alloc: Global,
        announced: &HashMap<String, u64>,
    ) -> Result<MessageEvent, AllocError>
        ensures { IfOk result (λ copy. copy ≡ assumed_event (is_known (get_by_text announced.now)) self.now) }
    {
        Ok(MessageEvent::new(
            self.line(),
            self.host(),
            String::from_str(alloc, self.text())?,
            sent_ids(alloc, self.receives(), announced)?,
            copied_ids(alloc, self.sends())?,
        ))
    }
}

/// Copies of those of these ids that an event sends.
fn sent_ids(
    alloc: Global,
    ids: &[String],
    announced: &HashMap<String, u64>,
) -> Result<Vec<String>, AllocError>
    ensures { IfOk result (λ copies. map string_bytes copies.items
        ≡ filter (is_known (get_by_text announced.now)) (map string_bytes ids.now)) }
{
    let mut copies = Vec::new(alloc);
    for id in ids {
        if announced.contains_key(id.as_str()) {
            copies.push(String::from_str(alloc, id.as_str())?)?;
        }
    }
    Ok(copies)
}

/// Copies of these ids.
fn copied_ids(alloc: Global, ids: &[String]) -> Result<Vec<String>, AllocError>
    ensures { IfOk result (λ copies. map string_bytes copies.items ≡ map string_bytes ids.now) }
{
    let mut copies = Vec::with_capacity(alloc, ids.len())?;
    for id in ids {
        copies.push(String::from_str(alloc, id.as_str())?)?;
    }
    Ok(copies)
}
