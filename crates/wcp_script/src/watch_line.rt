//! The line that names the processes with a condition.
ghost use Rattle.std.specs.Prelude.{◌≡◌, ◌≤◌, None, IfOk};
ghost use Rattle.wcp_clock.specs.Limits.{most_processes};
ghost use Rattle.wcp_script.specs.Head.{numbers_in, watch_line};
ghost use Rattle.wcp_script.specs.Views.{words_behind};
ghost use Rattle.wcp_script.specs.Named.{nobody, with_number, named_by};

use crate::fault::{FaultKind, ask};
use crate::head_line::{HeadLine, is_after};
use crate::lines::next_word;
use crate::number::number_in;
use wcp_model::Watched;

/// What the numbers of a watch line say so far.
#[derive(Clone, Copy)]
struct Named {
    /// The last of them.
    last: Option<u32>,
    /// Whether they rise.
    rise: bool,
    /// Whether each of them is that of a process.
    within: bool,
    /// The processes among them.
    watched: Watched,
}

/// What a watch line says of `n` processes, by the words behind its first.
#[tactic(auto, using(crate::proofs::WatchLines::watch_line_behind))]
pub(crate) fn watch_line(n: u32, words: Option<&[u8]>) -> Result<HeadLine, FaultKind>
    requires { n ≤ most_processes }
    ensures { result ≡ watch_line n (words_behind words.entry) }
{
    ask(words.is_some(), FaultKind::Line)?;
    let named = named_by(n, words)?;
    ask(named.rise, FaultKind::Line)?;
    ask(named.within, FaultKind::Process)?;
    Ok(HeadLine::Watch(named.watched))
}

fn named_by(n: u32, words: Option<&[u8]>) -> Result<Named, FaultKind>
    requires { n ≤ most_processes }
    ensures { result ≡ named_by n nobody (numbers_in (words_behind words.entry)) }
{
    let mut named = Named::nobody();
    let mut rest = words;
    while let Some(left) = rest {
        let (word, behind) = next_word(left);
        named = named.with_number(n, number_in(word)?);
        rest = behind;
    }
    Ok(named)
}

impl Named {
    fn nobody() -> Named
        ensures { result ≡ nobody }
    {
        Named {
            last: None,
            rise: true,
            within: true,
            watched: Watched::none(),
        }
    }

    fn with_number(self, n: u32, p: u32) -> Named
        requires { n ≤ most_processes }
        ensures { result ≡ with_number n self p }
    {
        Named {
            last: Some(p),
            rise: self.rise && is_after(self.last, p),
            within: self.within && p < n,
            watched: if p < n {
                self.watched.with(p)
            } else {
                self.watched
            },
        }
    }
}
