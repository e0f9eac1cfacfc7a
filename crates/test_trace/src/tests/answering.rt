ghost use Rattle.std.specs.Prelude.{◌≡◌, [], ◌∷◌, codes, length, map};
ghost use Rattle.trace_moment.specs.Views.{seen_watch};
ghost use Rattle.trace_moment.specs.Search.{watched_by};

use std::alloc::{AllocError, Global};
use std::fmt::Write;
use std::process::Abort;
use trace_log::{Log, LogLayout, LogReadFault, Logged};
use trace_moment::{KeptEvent, Lasting, Search, WatchedHost};

/// Compares when the moment of alice and bob holding the lock was known, and their events with their lines.
pub fn assert_answer(
    rt: &impl Abort,
    alloc: Global,
    lasting: Lasting,
    bytes: &[u8],
    expected: &str,
) {
    let answer = answer(rt, alloc, lasting, bytes);
    assert_eq!(rt; answer.as_str(), expected);
}

/// When the moment of alice and bob holding the lock was known, and their events with their lines.
pub fn answer(rt: &impl Abort, alloc: Global, lasting: Lasting, bytes: &[u8]) -> String {
    let mut search = alice_and_bob(rt, alloc, lasting);
    let mut text = String::new(alloc);
    match known_at(alloc, &mut search, bytes).expect(rt, "memory") {
        Some(line) => write!(text, "line {line}:").expect(rt, "memory"),
        None => push_end(rt, &mut text, &mut search),
    }
    push_moment(rt, &mut text, &search);
    text
}

/// The search of alice and bob, which has taken nothing.
pub fn alice_and_bob(rt: &impl Abort, alloc: Global, lasting: Lasting) -> Search
    ensures { length (watched_by result) ≡ 2 }
{
    let watched = two(rt, alloc, lasting);
    Search::new(alloc, watched).expect(rt, "memory")
}

fn two(rt: &impl Abort, alloc: Global, lasting: Lasting) -> Vec<WatchedHost>
    ensures { map seen_watch result.items
        ≡ record { host = codes "alice"; lasting = lasting } ∷ record { host = codes "bob"; lasting = lasting } ∷ [] }
{
    let mut watched = Vec::with_capacity(alloc, 2).expect(rt, "memory");
    let host = String::from_str(alloc, "alice").expect(rt, "memory");
    watched
        .push(WatchedHost { host, lasting })
        .expect(rt, "memory");
    let host = String::from_str(alloc, "bob").expect(rt, "memory");
    watched
        .push(WatchedHost { host, lasting })
        .expect(rt, "memory");
    watched
}

/// The line at which the moment was known, if it was before the log's end.
fn known_at(alloc: Global, search: &mut Search, bytes: &[u8]) -> Result<Option<u64>, AllocError>
    requires { length (watched_by search.old) ≡ 2 }
    ensures { length (watched_by search.new) ≡ 2 }
{
    let mut log = Log::new(alloc, LogLayout::Shiviz.whole());
    let mut line: u64 = 0;
    for row in bytes.split(|byte| *byte == b'\n') {
        line = line.saturating_add(1);
        if read_on(&mut log, search, row)? {
            return Ok(Some(line));
        }
    }
    Ok(None)
}

/// Reads a line: whether the moment is known.
pub fn read_on(log: &mut Log, search: &mut Search, row: &[u8]) -> Result<bool, AllocError>
    requires { length (watched_by search.old) ≡ 2 }
    ensures { watched_by search.new ≡ watched_by search.old }
{
    match log.read(row) {
        Ok(_) => take_last(log, search),
        Err(LogReadFault::Log(_)) => Ok(false),
        Err(LogReadFault::Memory) => Err(AllocError),
    }
}

/// Takes the event that the last line ended, if it ended one.
fn take_last(log: &Log, search: &mut Search) -> Result<bool, AllocError>
    requires { length (watched_by search.old) ≡ 2 }
    ensures { watched_by search.new ≡ watched_by search.old }
{
    match log.event() {
        Some(logged) => take(search, &logged),
        None => Ok(false),
    }
}

/// Takes an event, if it's one of a watched host.
fn take(search: &mut Search, logged: &Logged<'_>) -> Result<bool, AllocError>
    requires { length (watched_by search.old) ≡ 2 }
    ensures { watched_by search.new ≡ watched_by search.old }
{
    let place = match logged.event.host {
        "alice" => 0,
        "bob" => 1,
        _ => return Ok(false),
    };
    let text = logged.event.text;
    let holds = text.starts_with("holds") || text.starts_with("writes");
    search.take(place, logged, holds)
}

/// Says whether the moment is known at the log's end.
fn push_end(rt: &impl Abort, text: &mut String, search: &mut Search)
    ensures { watched_by search.new ≡ watched_by search.old }
{
    let said = if search.end() { "end:" } else { "none" };
    text.push_str(said).expect(rt, "memory");
}

/// Says the events of the moment, where it is known.
fn push_moment(rt: &impl Abort, text: &mut String, search: &Search)
    requires { length (watched_by search.now) ≡ 2 }
{
    for place in 0..2 {
        if let Some(event) = search.event(place) {
            let host = if place == 0 { "alice" } else { "bob" };
            push_event(rt, text, host, event);
        }
    }
}

fn push_event(rt: &impl Abort, text: &mut String, host: &str, event: &KeptEvent) {
    write!(text, " {host} {} {}", event.line, event.text).expect(rt, "memory");
}
