//! The program `wcptrace`.
#![tactic(auto)]

use std::alloc::AllocError;
use std::io::{self, ErrorKind, IsTerminal};
use std::process::ExitCode;
use std::rt::Env;
use std::{env, fs};
use trace_cli::{
    AnswerWriter, EndExpressions, LogReader, LogSpelling, Notes, ProgressTeller, Shows,
    TellingReader, TraceFault, Unmatched, WholeReader, asked_questions, check_expressions, drive,
    may_lack_ends, read_file, refuse,
};
use trace_words::{TraceRequest, read_options};
use wcp_words::{FileFault, InputSource, JoinedReader, open, open_again, tell_terminal};

/// The program's name, with which its lines on standard error begin.
const NAME: &str = "wcptrace";

/// The status where a moment was found.
const FOUND: u8 = 0;

/// The status where nobody reads the output any more.
const CLOSED_PIPE: u8 = 141;

/// The word that asks to be told how far the log was read.
const PROGRESS: &str = "--progress";

fn main(rt: HostRuntime) -> ExitCode {
    let status = match run(&rt) {
        Ok(status) => status,
        Err(fault) => refuse(&mut rt.stderr(), &fault),
    };
    ExitCode::from(status)
}

/// Runs the program on the words of the command line, and on the files that they name. What no event matches is told
/// behind the answer.
fn run(rt: &HostRuntime) -> Result<u8, TraceFault> {
    let words = words(rt)?;
    let request = read_options(rt.alloc(), words.as_slice())?;
    let mut output = AnswerWriter::new(rt.stdout(), shows(rt, &request));
    let mut file = open(rt, request.questions(), rt.stdin())?;
    let mut log = JoinedReader::new(rt.alloc(), NAME, rt.stderr());
    for source in &request.sources(rt.alloc())? {
        refuse_folder(rt, *source)?;
        log.add(*source, open(rt, *source, rt.stdin())?)?;
        tell_terminal(NAME, *source, &rt.stdin(), &mut rt.stderr());
    }
    let spelling = LogSpelling::asked_for(rt.alloc(), &request)?;
    check_expressions(rt.alloc(), &request)?;
    let text = read_file(rt.alloc(), &request, &mut file)?;
    let questions = asked_questions(rt.alloc(), &request, text.as_slice());
    let ends = EndExpressions::new(rt.alloc(), &questions)?;
    let is_watched = rt.stderr().is_terminal();
    let teller = is_watched.then(|| ProgressTeller::new(NAME, rt, rt.stderr()));
    let tells_progress = is_watched || words.iter().any(|word| word.as_str() == PROGRESS);
    let log = TellingReader::new(log, teller);
    let mut log = WholeReader::new(LogReader::new(rt.alloc(), log, spelling.as_ref())?);
    let mut notes = Notes::new(rt.alloc(), NAME, rt, rt.stderr(), tells_progress, ends);
    let status = drive(
        rt.alloc(),
        words.as_slice(),
        &mut text.as_slice(),
        &mut log,
        &mut output,
        &mut rt.stderr(),
        &mut notes,
    );
    if status == CLOSED_PIPE {
        return Ok(status);
    }
    notes.tell_end(log.input().skipped());
    let may_lack = may_lack_ends(&request, status, &questions)
        && (status == FOUND || log.is_at_end());
    let unmatched = unmatched_after(rt, &request, may_lack, log.is_at_end(), notes.ends())?;
    output.end(rt.alloc(), &unmatched)?;
    unmatched.tell(NAME, &mut rt.stderr());
    Ok(status)
}

/// How answers are shown.
fn shows(rt: &HostRuntime, request: &TraceRequest<'_>) -> Shows {
    if rt.stdout().is_terminal() {
        Shows::Escaped
    } else {
        Shows::asked_for(request)
    }
}

/// The ends of states that no event matches, if what was told may rest on one. Of a log of which not all was read the
/// rest counts too, where it can be read again.
fn unmatched_after(
    rt: &HostRuntime,
    request: &TraceRequest<'_>,
    may_lack: bool,
    is_at_end: bool,
    ends: &mut EndExpressions<'_>,
) -> Result<Unmatched, TraceFault> {
    if !may_lack {
        return Ok(Unmatched::none(rt.alloc()));
    }
    let is_whole = is_at_end || read_again(rt, request, ends).unwrap_or(false);
    Ok(ends.unmatched(rt.alloc(), is_whole)?)
}

/// Takes the events of a log once more, and says whether these were all. None are taken where it can't be read again.
fn read_again(
    rt: &HostRuntime,
    request: &TraceRequest<'_>,
    ends: &mut EndExpressions<'_>,
) -> Option<bool> {
    let TraceRequest::Trace(options) = request else {
        return None;
    };
    if ends.have_matched() {
        return None;
    }
    let mut log = JoinedReader::new(rt.alloc(), NAME, io::sink());
    for source in &request.sources(rt.alloc()).ok()? {
        log.add(*source, open_again(rt, *source)?).ok()?;
    }
    let spelling = LogSpelling::asked_for(rt.alloc(), request).ok()?;
    let mut log = LogReader::new(rt.alloc(), log, spelling.as_ref()).ok()?;
    ends.read_again(rt.alloc(), options.form, &mut log).ok()
}

/// Refuses a folder in the place of a file, which could be opened, but not read.
fn refuse_folder(rt: &HostRuntime, source: InputSource<'_>) -> Result<(), TraceFault> {
    if let InputSource::File(name) = source
        && fs::metadata(rt, name).is_ok_and(|file| file.is_dir())
    {
        return Err(TraceFault::File(FileFault::Open {
            name: String::from_str(rt.alloc(), name)?,
            why: ErrorKind::IsADirectory.into(),
        }));
    }
    Ok(())
}

/// The words of the command line, of which the first is the program's name.
fn words<R: Env + AllocGlobal>(rt: &R) -> Result<Vec<String>, TraceFault> {
    match env::args(rt) {
        Ok(words) => Ok(words.collect(rt.alloc())?),
        Err(error) if error.kind() == ErrorKind::OutOfMemory => Err(AllocError.into()),
        Err(_) => Err(TraceFault::Usage {
            why: String::from_str(rt.alloc(), "a word isn't UTF-8")?,
        }),
    }
}
