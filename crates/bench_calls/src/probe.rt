//! Many calls of probes: `bench_calls probe WORD CALLS`, where the word is observe, stamp, receive or note. Each call
//! is of one of sixteen probes, in no regular order. A receive is a stamp of one probe and its receive by another; a
//! note is a stamp, an observation that emits, and the taking of its note.

use crate::words::{number_at, word_at};
use std::alloc::{AllocError, Global};
use wcp_clock::CLOCK_LIMIT;
use wcp_model::{Flag, ProbeSetup};
use wcp_probe::ProbeCore;

/// The processes of the watch.
const PROCS: u32 = 16;

fn probes(alloc: Global) -> Result<Vec<ProbeCore>, AllocError> {
    let mut probes = Vec::with_capacity(alloc, PROCS as usize)?;
    for id in 0..PROCS {
        probes.push(ProbeCore::new(
            0,
            ProbeSetup {
                processes: PROCS,
                process: id,
                watched: true,
                flag: Flag::Event,
            },
            CLOCK_LIMIT,
        ))?;
    }
    Ok(probes)
}

/// Numbers below 2 ^ 28 in no regular order, by a linear congruence.
#[derive(Drop)]
struct Numbers(u32);

impl Numbers {
    fn next(&mut self) -> u32 {
        self.0 = self.0.wrapping_mul(1_664_525).wrapping_add(1_013_904_223);
        self.0 >> 4
    }
}

/// A process, and another one.
fn pair(numbers: &mut Numbers) -> (u32, u32) {
    let number = numbers.next() >> 8;
    let process = number % PROCS;
    let other = (process + 1 + number / PROCS % (PROCS - 1)) % PROCS;
    (process, other)
}

fn observe(probes: &mut [ProbeCore], numbers: &mut Numbers) {
    let (process, other) = pair(numbers);
    if let Some(probe) = probes.get_mut(process as usize) {
        let _ = probe.observe(other < process);
    }
}

fn stamp(probes: &mut [ProbeCore], numbers: &mut Numbers) {
    let (process, other) = pair(numbers);
    if let Some(probe) = probes.get_mut(process as usize) {
        let _ = probe.stamp(other, ());
    }
}

fn receive(probes: &mut [ProbeCore], numbers: &mut Numbers) {
    let (process, other) = pair(numbers);
    let Some(sender) = probes.get_mut(process as usize) else {
        return;
    };
    let Ok(message) = sender.stamp(other, ()) else {
        return;
    };
    if let Some(receiver) = probes.get_mut(other as usize) {
        let _ = receiver.receive(message);
    }
}

fn note(probes: &mut [ProbeCore], numbers: &mut Numbers) {
    let (process, other) = pair(numbers);
    if let Some(probe) = probes.get_mut(process as usize) {
        let _ = probe.stamp(other, ());
        let _ = probe.observe(true);
        if probe.pending().is_some() {
            probe.was_put();
        }
    }
}

fn call_often(word: &str, calls: u32, probes: &mut [ProbeCore]) {
    let mut numbers = Numbers(1);
    for _ in 0..calls {
        match word {
            "observe" => observe(probes, &mut numbers),
            "stamp" => stamp(probes, &mut numbers),
            "receive" => receive(probes, &mut numbers),
            "note" => note(probes, &mut numbers),
            _ => {}
        }
    }
}

/// How many events the probes know of, and how many snapshots they made.
#[derive(Clone, Copy)]
struct Known {
    events: u64,
    emitted: u64,
}

fn known_by(probes: &[ProbeCore]) -> Known {
    let mut events: u64 = 0;
    let mut emitted: u64 = 0;
    for probe in probes {
        for p in 0..PROCS {
            events = events.wrapping_add(u64::from(probe.clock().get(p)));
        }
        emitted = emitted.wrapping_add(u64::from(probe.emitted()));
    }
    Known { events, emitted }
}

/// Makes the calls that the words ask for, and prints what the probes know then.
pub fn make_calls<R: Print + AllocGlobal>(rt: &R, words: &[String]) -> anyhow::Result<()> {
    let mut probes = probes(rt.alloc())?;
    call_often(word_at(words, 0), number_at(words, 1), &mut probes);
    let Known { events, emitted } = known_by(&probes);
    println!(rt; "known {events} emitted {emitted}")?;
    Ok(())
}
