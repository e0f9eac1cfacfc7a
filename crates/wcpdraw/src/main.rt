//! The program `wcpdraw`.
#![tactic(auto)]

use draw_cli::{DrawFault, drive, read_words, refuse};
use std::alloc::AllocError;
use std::env;
use std::io::ErrorKind;
use std::process::ExitCode;
use std::rt::Env;
use wcp_words::{open, tell_terminal};

fn main(rt: HostRuntime) -> ExitCode {
    let status = match run(&rt) {
        Ok(status) => status,
        Err(fault) => refuse(&mut rt.stderr(), &fault),
    };
    ExitCode::from(status)
}

/// Runs the program on the words of the command line, and on the workload that they name.
fn run(rt: &HostRuntime) -> Result<u8, DrawFault> {
    let words = words(rt)?;
    let source = read_words(rt.alloc(), words.as_slice())?.source();
    let mut workload = open(rt, source, rt.stdin())?;
    tell_terminal("wcpdraw", source, &rt.stdin(), &mut rt.stderr());
    Ok(drive(
        rt.alloc(),
        words.as_slice(),
        &mut workload,
        &mut rt.stdout(),
        &mut rt.stderr(),
    ))
}

/// The words of the command line, of which the first is the program's name.
fn words<R: Env + AllocGlobal>(rt: &R) -> Result<Vec<String>, DrawFault> {
    match env::args(rt) {
        Ok(words) => Ok(words.collect(rt.alloc())?),
        Err(error) if error.kind() == ErrorKind::OutOfMemory => Err(AllocError.into()),
        Err(_) => Err(DrawFault::Usage {
            why: String::from_str(rt.alloc(), "a word isn't UTF-8")?,
        }),
    }
}
