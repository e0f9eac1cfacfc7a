//! The answer to each request: what is printed, and the exit status.
ghost use Rattle.std.specs.Prelude.{◌≡◌, ◌≢◌, ◌≤◌, IfOk, IfErr};
ghost use Rattle.wcp_cli.specs.RequestAnswers.{IsAnswerTo, IsOutcomeAnswer, IsReplayAnswer, Reads, ring_text};
ghost use Rattle.wcp_cli.specs.RequestAnswers.{version_text};
ghost use Rattle.wcp_cli.specs.Words.{HasRing, IsRing};

use crate::fault::Fault;
use crate::help;
use crate::words::{Request, Ring};
use std::alloc::Global;
use std::io::Read;
use std::sync::Wait;
use std::thread::Threads;
use wcp_io::read_text;
use wcp_model::Outcome;
use wcp_report::{replay_text, report_text};
use wcp_run::run;
use wcp_script::{
    read_ordered, read_schedule, read_workload, ring_workload, single_in_order, workload_text,
};
use wcp_worker::Open;
use wcp_world::play;

/// The status where a bad moment was found, and after a text that tells of no computation.
const FOUND: u8 = 0;

/// What the program prints, and its exit status.
#[derive(Debug, Drop)]
pub struct Answer {
    pub text: Vec<u8>,
    pub status: u8,
    ghost small: { status ≤ 1 },
}

/// The answer to a request. `Run` alone starts threads, and waits for them.
pub fn answer_to<R: AllocGlobal + Threads + Wait + Sync, I: Read>(
    rt: &R,
    request: Request,
    input: &mut I,
) -> Result<Answer, Fault>
    requires { HasRing request }
    ensures answer { IfOk result (λ answer. IsAnswerTo request
        (I.remaining input.old) (I.remaining input.new) answer.text.items answer.status) }
    ensures reads { Reads request (I.remaining input.old) (I.remaining input.new) }
    ensures known { request ≢ Request.Unknown → IfErr result (λ fault. fault ≢ Fault.Usage) }
{
    let alloc = rt.alloc();
    match request {
        Request::Single => {
            let text = read_text(alloc, input)?;
            outcome_answer(alloc, text.as_slice())
        }
        Request::Run => {
            let text = read_text(alloc, input)?;
            run_answer(rt, text.as_slice())
        }
        Request::Replay => {
            let text = read_text(alloc, input)?;
            replay_answer(alloc, text.as_slice())
        }
        Request::Ring(ring) => ring_answer(alloc, ring),
        Request::Help(text) => Ok(Answer {
            text: text.into_bytes(),
            status: FOUND,
        }),
        Request::Version => version_answer(alloc),
        Request::Unknown => Err(Fault::Usage),
    }
}

/// The outcome of the workload that the text spells.
fn outcome_answer(alloc: Global, text: &[u8]) -> Result<Answer, Fault>
    ensures answer { IfOk result (λ answer. IsOutcomeAnswer text.now answer.text.items answer.status) }
    ensures known { IfErr result (λ fault. fault ≢ Fault.Usage) }
{
    let read = read_ordered(alloc, text)?;
    let outcome = single_in_order(alloc, &read.workload, read.in_order())?;
    Ok(Answer {
        text: report_text(alloc, &outcome)?,
        status: outcome.report.exit_status(),
    })
}

/// The outcome of the workload that the text spells, from a run in threads.
fn run_answer<R: AllocGlobal + Threads + Wait + Sync>(rt: &R, text: &[u8]) -> Result<Answer, Fault>
    ensures answer { IfOk result (λ answer. IsOutcomeAnswer text.now answer.text.items answer.status) }
    ensures known { IfErr result (λ fault. fault ≢ Fault.Usage) }
{
    let alloc = rt.alloc();
    let workload = read_workload(alloc, text)?;
    let outcome = run(rt, alloc, &workload, &Open)?;
    Ok(Answer {
        text: report_text(alloc, &outcome)?,
        status: outcome.report.exit_status(),
    })
}

/// The replies to the steps of the schedule that the text spells, and the outcome so far.
fn replay_answer(alloc: Global, text: &[u8]) -> Result<Answer, Fault>
    ensures answer { IfOk result (λ answer. IsReplayAnswer text.now answer.text.items answer.status) }
    ensures known { IfErr result (λ fault. fault ≢ Fault.Usage) }
{
    let schedule = read_schedule(alloc, text)?;
    let played = play(alloc, &schedule.plan, schedule.steps.as_slice())?;
    let outcome = Outcome {
        report: played.report,
        tallies: played.tallies,
    };
    Ok(Answer {
        text: replay_text(alloc, played.replies.as_slice(), &outcome)?,
        status: outcome.report.exit_status(),
    })
}

/// The text of a ring workload.
fn ring_answer(alloc: Global, ring: Ring) -> Result<Answer, Fault>
    requires { IsRing ring.procs ring.rounds }
    ensures text { IfOk result (λ answer. answer.text.items ≡ ring_text ring.procs ring.rounds ring.fault) }
    ensures status { IfOk result (λ answer. answer.status ≡ 0) }
    ensures known { IfErr result (λ fault. fault ≢ Fault.Usage) }
{
    let workload = ring_workload(alloc, ring.procs, ring.rounds, ring.fault)?;
    Ok(Answer {
        text: workload_text(alloc, &workload)?,
        status: FOUND,
    })
}

/// The program's name and version, and the toolchain that it is proved with.
fn version_answer(alloc: Global) -> Result<Answer, Fault>
    ensures text { IfOk result (λ answer. answer.text.items ≡ version_text) }
    ensures status { IfOk result (λ answer. answer.status ≡ 0) }
    ensures known { IfErr result (λ fault. fault ≢ Fault.Usage) }
{
    let mut text = Vec::new(alloc);
    text.extend_from_slice(help::VERSION.as_bytes())?;
    Ok(Answer {
        text,
        status: FOUND,
    })
}
