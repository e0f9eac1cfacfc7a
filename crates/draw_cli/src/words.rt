//! What the words of the command line ask for.
ghost use Rattle.std.specs.Prelude.{◌≡◌, is_some};
ghost use Rattle.draw_cli.specs.Sketches.{is_page};

use crate::help;
use crate::sketching::DrawForm;
use crate::workload_page::PageWords;
use clap::error::ErrorKind;
use clap::{Arg, ArgAction, ArgMatches, Command, value_parser};
use std::alloc::{AllocError, Global};
use std::convert::AsStr;
use wcp_words::{InputSource, usage_line};

/// The most columns of a picture where the words don't say it.
const COLUMNS: u32 = 80;

/// What the words ask for.
#[derive(Debug, Drop)]
pub enum DrawRequest<'a> {
    /// A picture of a workload, or a page.
    Picture(PictureWords<'a>),
    /// This help text.
    Help(String),
    /// The program's version.
    Version,
    /// Something that the program doesn't know. The line says why.
    Unknown(String),
}

/// What the words say of a picture.
#[derive(Clone, Copy, Debug)]
pub struct PictureWords<'a> {
    /// The list between whose commas the names of the processes stand, where there is one.
    pub names: Option<&'a str>,
    /// The name of the file that the workload stands in, where one is given.
    pub file: Option<&'a str>,
    /// The most columns of a picture.
    pub columns: u32,
    /// What is said of the page, where one is asked for.
    pub page: Option<PageWords<'a>>,
}

impl<'a> PictureWords<'a> {
    /// What is drawn.
    pub(crate) fn form(&self) -> DrawForm<'a>
        ensures { is_page result ≡ is_some self.now.page }
    {
        match self.page {
            Some(page) => DrawForm::Page(page),
            None => DrawForm::Svg(self.columns),
        }
    }
}

impl<'a> DrawRequest<'a> {
    /// What is read for the answer.
    pub fn source(&self) -> InputSource<'a> {
        match self {
            DrawRequest::Picture(picture) => InputSource::named_by(picture.file),
            _ => InputSource::Nowhere,
        }
    }
}

/// What the words ask for, of which the first is the program's name. `Err` where memory runs out.
pub fn read_words<'a, S: AsStr>(
    alloc: Global,
    words: &'a [S],
) -> Result<DrawRequest<'a>, AllocError> {
    match command(alloc)?.try_get_matches_from(words) {
        Ok(matches) => drawing_of(alloc, &matches),
        Err(error) => match error.kind() {
            ErrorKind::DisplayHelp => Ok(DrawRequest::Help(error.to_string(alloc)?)),
            ErrorKind::DisplayVersion => Ok(DrawRequest::Version),
            ErrorKind::OutOfMemory => Err(AllocError),
            _ => Ok(DrawRequest::Unknown(usage_line(alloc, &error)?)),
        },
    }
}

/// What is to be drawn, where no word is refused.
fn drawing_of<'a>(alloc: Global, matches: &ArgMatches<'a>) -> Result<DrawRequest<'a>, AllocError> {
    let page = page_words(matches);
    if page.is_none() && matches.get_one::<u32>("events").is_some() {
        let why = String::from_str(alloc, "--events is of a page: give --page too")?;
        return Ok(DrawRequest::Unknown(why));
    }
    Ok(DrawRequest::Picture(PictureWords {
        names: matches.get_str("names"),
        file: matches.get_str("file"),
        columns: matches.get_one("columns").unwrap_or(COLUMNS),
        page,
    }))
}

/// What the words say of the page, where one is asked for.
fn page_words<'a>(matches: &ArgMatches<'a>) -> Option<PageWords<'a>> {
    if !matches.get_flag("page") {
        return None;
    }
    let title = match matches.get_str("file") {
        Some(name) if name != "-" => name,
        _ => "",
    };
    Some(PageWords {
        title,
        events: matches.get_one::<u32>("events"),
    })
}

/// The command line of the program.
fn command<'a>(alloc: Global) -> Result<Command<'a>, AllocError> {
    let svg = Arg::new(alloc, "svg")
        .long("svg")
        .action(ArgAction::SetTrue)
        .conflicts_with("page")?
        .help(help::SVG);
    let page = Arg::new(alloc, "page")
        .long("page")
        .action(ArgAction::SetTrue)
        .help(help::PAGE);
    let events = Arg::new(alloc, "events")
        .long("events")
        .value_name("N")
        .value_parser(value_parser!(u32))
        .help(help::EVENTS);
    let columns = Arg::new(alloc, "columns")
        .long("columns")
        .value_name("N")
        .value_parser(value_parser!(u32).range(10..=1000))
        .conflicts_with("page")?
        .help(help::COLUMNS);
    let names = Arg::new(alloc, "names")
        .long("names")
        .value_name("LIST")
        .help(help::NAMES);
    let file = Arg::new(alloc, "file").value_name("FILE").help(help::FILE);
    Command::new(alloc, "wcpdraw")
        .before_help(help::EXAMPLES)
        .about(help::ABOUT)
        .version(help::VERSION)
        .after_help(help::MORE)
        .arg(svg)?
        .arg(page)?
        .arg(events)?
        .arg(names)?
        .arg(columns)?
        .arg(file)
}
