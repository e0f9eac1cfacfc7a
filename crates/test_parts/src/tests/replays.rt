use std::alloc::Global;
use std::process::Abort;
use wcp_clock::{Clock, Item, Note};
use wcp_model::{Plan, Reply, Report, Step, Tallies, Tally, Why, plain_plan};
use wcp_world::{Played, World, play};

/// What a step is answered, as worked out by hand.
#[derive(Drop)]
pub enum Expected<'a> {
    Made,
    Refused(Why),
    /// A snapshot was taken: of this process, of this number, with a clock of these components.
    TookSnap(u32, u32, &'a [u32]),
    /// A close mark was taken: of this process, with this count.
    TookClose(u32, u32),
}

/// Steps, what each is answered, and how many snapshots of each process are then emitted and taken.
#[derive(Drop)]
pub struct Replay<'a> {
    pub name: &'a str,
    pub steps: &'a [(Step, Expected<'a>)],
    pub tallies: &'a [(u64, u64)],
}

/// A clock after so many events more of process `p`.
fn ticked(rt: &impl Abort, clock: Clock, p: u32, events: u32) -> Clock {
    let mut ticked = clock;
    for _ in 0..events {
        assert!(rt; p < ticked.len());
        if !ticked.tick(p, events) {
            panic!(rt; "the clock's end");
        }
    }
    ticked
}

/// The clock of these components.
fn clock_of(rt: &impl Abort, components: &[u32]) -> Clock {
    let count = components.len();
    assert!(rt; 0 < count && count <= 16);
    let mut clock = Clock::new(count as u32);
    for (p, component) in components.iter().enumerate() {
        clock = ticked(rt, clock, p as u32, *component);
    }
    clock
}

fn reply_of(rt: &impl Abort, expected: &Expected) -> Reply {
    match expected {
        Expected::Made => Reply::Done,
        Expected::Refused(why) => Reply::Refused(*why),
        Expected::TookSnap(from, number, components) => Reply::Took(Item {
            from: *from,
            note: Note::Snap {
                number: *number,
                clock: clock_of(rt, components),
            },
        }),
        Expected::TookClose(from, count) => Reply::Took(Item {
            from: *from,
            note: Note::Close { count: *count },
        }),
    }
}

/// Compares the whole reply to a step.
fn assert_reply(rt: &impl Abort, step: Step, reply: Reply, expected: &Expected) {
    let expected = reply_of(rt, expected);
    assert_eq!(rt; reply, expected, "{step:?}");
}

/// The steps of a replay. Where memory runs out, asking again makes their list.
fn steps_of(rt: &impl Abort, alloc: Global, replay: &Replay) -> Vec<Step> {
    let count = replay.steps.len();
    let mut steps = match Vec::with_capacity(alloc, count) {
        Ok(steps) => steps,
        Err(_) => Vec::with_capacity(alloc, count).expect(rt, "memory"),
    };
    for row in replay.steps {
        assert!(rt; steps.push(row.0).is_ok());
    }
    steps
}

/// Plays these steps under a plan. Where memory runs out, asking again plays them.
fn played(rt: &impl Abort, alloc: Global, plan: &Plan, steps: &[Step]) -> Played {
    assert!(rt; plan.check().is_ok());
    match play(alloc, plan, steps) {
        Ok(played) => played,
        Err(_) => play(alloc, plan, steps).expect(rt, "memory"),
    }
}

/// Compares the reply to each step.
fn assert_replies(rt: &impl Abort, replies: &[Reply], replay: &Replay) {
    assert_eq!(rt; replies.len(), replay.steps.len(), "{}", replay.name);
    for (at, row) in replay.steps.iter().enumerate() {
        let reply = replies.get(at).expect(rt, "a reply");
        assert_reply(rt, row.0, *reply, &row.1);
    }
}

/// The world of a plan, before any step. Where memory runs out, asking again makes it.
fn world_of(rt: &impl Abort, alloc: Global, plan: &Plan) -> World {
    assert!(rt; plan.check().is_ok());
    match World::new(alloc, plan) {
        Ok(world) => world,
        Err(_) => World::new(alloc, plan).expect(rt, "memory"),
    }
}

/// Makes a step. Where memory runs out, asking again makes it.
fn step(rt: &impl Abort, world: &mut World, step: Step) -> Reply {
    match world.step(step) {
        Ok(reply) => reply,
        Err(_) => world.step(step).expect(rt, "memory"),
    }
}

/// Makes each step, and compares its whole reply.
fn assert_steps(rt: &impl Abort, world: &mut World, replay: &Replay) {
    for row in replay.steps {
        let reply = step(rt, world, row.0);
        assert_reply(rt, row.0, reply, &row.1);
    }
}

/// Compares a report.
fn assert_report(rt: &impl Abort, found: &Report, report: &Report, name: &str) {
    assert_eq!(rt; *found, *report, "{name}");
}

/// Compares how many snapshots of a process were emitted and taken.
fn assert_tally(rt: &impl Abort, tally: Tally, (emitted, taken): (u64, u64), name: &str) {
    assert_eq!(rt; tally, Tally { emitted, taken }, "{name}");
}

/// Compares how many snapshots of each process were emitted and taken.
fn assert_tallies(rt: &impl Abort, tallies: &Tallies, replay: &Replay) {
    let name = replay.name;
    assert_eq!(rt; tallies.len() as usize, replay.tallies.len(), "{name}");
    for (p, counts) in replay.tallies.iter().enumerate() {
        assert!(rt; (p as u32) < tallies.len());
        assert_tally(rt, tallies.get(p as u32), *counts, name);
    }
}

/// Compares how many snapshots of each process are emitted and taken in a world.
fn assert_world(rt: &impl Abort, world: &World, replay: &Replay) {
    assert_eq!(rt; world.processes() as usize, replay.tallies.len());
    for (p, counts) in replay.tallies.iter().enumerate() {
        assert!(rt; (p as u32) < world.processes());
        assert_tally(rt, world.tally(p as u32), *counts, replay.name);
    }
}

/// Makes the steps of a replay one by one in the world of a plan, and compares each reply, the report and the tallies.
fn assert_made_one_by_one(
    rt: &impl Abort,
    alloc: Global,
    plan: &Plan,
    replay: &Replay,
    report: &Report,
) {
    let mut world = world_of(rt, alloc, plan);
    assert_steps(rt, &mut world, replay);
    assert_report(rt, &world.report(), report, replay.name);
    assert_world(rt, &world, replay);
}

/// Plays the steps under a plan, also one by one, and compares each reply, the report and the tallies.
pub fn assert_played(
    rt: &impl Abort,
    alloc: Global,
    plan: &Plan,
    replay: &Replay,
    report: &Report,
) {
    let steps = steps_of(rt, alloc, replay);
    let played = played(rt, alloc, plan, &steps);
    assert_replies(rt, &played.replies, replay);
    assert_report(rt, &played.report, report, replay.name);
    assert_tallies(rt, &played.tallies, replay);
    assert_made_one_by_one(rt, alloc, plan, replay, report);
}

/// The plan of one relay for the processes of a replay, with room for so many notes in a link. Where memory runs out,
/// asking again makes it.
fn one_relay(rt: &impl Abort, alloc: Global, replay: &Replay, cap: u32) -> Plan {
    let n = replay.tallies.len();
    assert!(rt; 0 < n && n <= 16);
    match plain_plan(alloc, n as u32, cap, 4) {
        Ok(plan) => plan,
        Err(_) => plain_plan(alloc, n as u32, cap, 4).expect(rt, "memory"),
    }
}

/// Plays the steps under a plan of one relay, with room for so many notes in a link.
pub fn assert_played_by_one_relay(
    rt: &impl Abort,
    alloc: Global,
    replay: &Replay,
    cap: u32,
    report: &Report,
) {
    let plan = one_relay(rt, alloc, replay, cap);
    assert_played(rt, alloc, &plan, replay, report);
}
