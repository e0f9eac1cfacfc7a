//! What the words of the command line ask for.
ghost use Rattle.std.specs.Prelude.{◌≡◌, ◌≢◌, ◌⊎◌, Some, None, false, map, codes, IfOk, IfSome, IsErr};
ghost use Rattle.clap.specs.Simple.{new_shape};
ghost use Rattle.clap.specs.Words.{app_of, kind_of, rule_of, subcommand_name_of, with_subcommand};
ghost use Rattle.clap.specs.declared.builder.command.Command.TheViews.{out-Command as fields_of};
ghost use Rattle.wcp_cli.specs.Words.{AskFor, HasRing, IsRing, IsSameRequest, MayHelp};
ghost use Rattle.wcp_cli.specs.Words.{program, number_option, flag_option, ring_shape};

use crate::help;
use clap::error::ErrorKind;
use clap::{Arg, ArgAction, ArgMatches, Command, Error, value_parser};
use std::alloc::{AllocError, Global};
use std::convert::AsStr;
use wcp_clock::MAX_PROCS;
use wcp_script::MAX_ROUNDS;

/// What the words ask for.
#[derive(Debug, Drop)]
pub enum Request {
    /// The outcome of the workload that the input spells.
    Single,
    /// The outcome of that workload, from a run in threads.
    Run,
    /// The replies to the schedule that the input spells, and its outcome.
    Replay,
    /// The text of a ring workload.
    Ring(Ring),
    /// This help text.
    Help(String),
    /// The program's version.
    Version,
    /// Something that the program doesn't know.
    Unknown,
}

/// A ring workload: messages go round all processes.
#[derive(Clone, Copy, Debug, PartialEq, Eq)]
pub struct Ring {
    /// How many processes there are, from 2 to 16.
    pub procs: u32,
    /// How often each process has its turn, from 1 to 1000.
    pub rounds: u32,
    /// Whether all processes find their conditions true before the first message.
    pub fault: bool,
}

/// The fewest processes of a ring.
const MIN_PROCS: u32 = 2;

/// The fewest turns of each process of a ring.
const MIN_ROUNDS: u32 = 1;

/// What the words ask for, of which the first is the program's name.
pub fn read_words<S: AsStr>(alloc: Global, words: &[S]) -> Result<Request, AllocError>
    ensures asked { (asked : Request) → AskFor asked (map S.text words.now) → IfOk result (IsSameRequest asked) }
    ensures in_ranges { IfOk result HasRing }
{
    match command(alloc)?.try_get_matches_from(words) {
        Ok(matches) => Ok(request_of(&matches)),
        Err(error) => request_without_matches(alloc, &error),
    }
}

/// What the matches ask for.
fn request_of(matches: &ArgMatches) -> Request
    ensures single { (subcommand_name_of matches.now ≡ None) ⊎ (subcommand_name_of matches.now ≡ Some (codes "single"))
        → result ≡ Request.Single }
    ensures run { subcommand_name_of matches.now ≡ Some (codes "run") → result ≡ Request.Run }
    ensures replay { subcommand_name_of matches.now ≡ Some (codes "replay") → result ≡ Request.Replay }
    ensures in_ranges { HasRing result }
{
    if let Some(options) = matches.subcommand_matches("ring") {
        return match ring_of(options) {
            Some(ring) => Request::Ring(ring),
            None => Request::Unknown,
        };
    }
    if matches.subcommand_matches("run").is_some() {
        return Request::Run;
    }
    match matches.subcommand_matches("replay") {
        Some(_) => Request::Replay,
        None => Request::Single,
    }
}

/// The ring that the options of `ring` ask for, if there is such a ring.
fn ring_of(options: &ArgMatches) -> Option<Ring>
    ensures { IfSome result (λ ring. IsRing ring.procs ring.rounds) }
{
    let procs = options.get_one::<u32>("procs")?;
    let rounds = options.get_one::<u32>("rounds")?;
    let fault = options.get_flag("fault");
    if MIN_PROCS <= procs
        && procs <= MAX_PROCS as u32
        && MIN_ROUNDS <= rounds
        && rounds <= MAX_ROUNDS
    {
        Some(Ring {
            procs,
            rounds,
            fault,
        })
    } else {
        None
    }
}

/// What the words ask for where clap gave no matches but this error.
fn request_without_matches(alloc: Global, error: &Error) -> Result<Request, AllocError>
    ensures memory { kind_of error.now ≡ ErrorKind.OutOfMemory → IsErr result }
    ensures version { kind_of error.now ≡ ErrorKind.DisplayVersion
        → IfOk result (λ request. request ≡ Request.Version) }
    ensures help { kind_of error.now ≢ ErrorKind.DisplayVersion → IfOk result MayHelp }
    ensures unknown { kind_of error.now ≢ ErrorKind.DisplayHelp → kind_of error.now ≢ ErrorKind.DisplayVersion
        → IfOk result (λ request. request ≡ Request.Unknown) }
    ensures in_ranges { IfOk result HasRing }
{
    match error.kind() {
        ErrorKind::DisplayHelp => Ok(Request::Help(error.to_string(alloc)?)),
        ErrorKind::DisplayVersion => Ok(Request::Version),
        ErrorKind::OutOfMemory => Err(AllocError),
        _ => Ok(Request::Unknown),
    }
}

/// The command line of the program.
fn command<'a>(alloc: Global) -> Result<Command<'a>, AllocError>
    ensures { IfOk result (λ command. app_of command ≡ program) }
{
    let named = Command::new(alloc, "wcpwatch")
        .about(help::ABOUT)
        .version(help::VERSION)
        .after_help(help::MORE);
    let with_single = with_reader(alloc, named, "single", help::SINGLE)?;
    let with_run = with_reader(alloc, with_single, "run", help::RUN)?;
    let with_replay = with_reader(alloc, with_run, "replay", help::REPLAY)?;
    with_ring(alloc, with_replay)
}

/// This command line with one more word, which takes no option.
fn with_reader<'a>(
    alloc: Global,
    command: Command<'a>,
    word: &'a str,
    about: &'a str,
) -> Result<Command<'a>, AllocError>
    ensures { IfOk result (λ more. app_of more ≡ with_subcommand (app_of command.entry) (new_shape word.entry.now)) }
{
    command.subcommand(Command::new(alloc, word).about(about))
}

/// This command line with the word `ring`.
fn with_ring<'a>(alloc: Global, command: Command<'a>) -> Result<Command<'a>, AllocError>
    ensures { IfOk result (λ more. app_of more ≡ with_subcommand (app_of command.entry) ring_shape) }
{
    let ring = ring_command(alloc)?;
    command.subcommand(ring)
}

/// The word `ring`.
fn ring_command<'a>(alloc: Global) -> Result<Command<'a>, AllocError>
    ensures shape { IfOk result (λ command. (app_of command).top ≡ ring_shape) }
    ensures local { IfOk result (λ command. (fields_of command).has_globals ≡ false) }
{
    Command::new(alloc, "ring")
        .about(help::RING)
        .arg(number_option(alloc, "procs", "N", help::PROCS))?
        .arg(number_option(alloc, "rounds", "R", help::ROUNDS))?
        .arg(fault_option(alloc))
}

/// An option of `ring` that takes a number.
fn number_option<'a>(alloc: Global, name: &'a str, value: &'a str, help: &'a str) -> Arg<'a>
    ensures rule { rule_of result ≡ number_option name.entry.now }
    ensures local { result.global ≡ false }
{
    Arg::new(alloc, name)
        .long(name)
        .value_name(value)
        .required(true)
        .value_parser(value_parser!(u32))
        .help(help)
}

/// Whether a ring begins with a fault.
fn fault_option<'a>(alloc: Global) -> Arg<'a>
    ensures rule { rule_of result ≡ flag_option (codes "fault") }
    ensures local { result.global ≡ false }
{
    Arg::new(alloc, "fault")
        .long("fault")
        .action(ArgAction::SetTrue)
        .help(help::FAULT)
}
