use crate::braces::with_braces;
use crate::breaks::lines_of;
use crate::fault::SpellingFault;
use crate::fields::{FieldPath, Fields, MemberReader};
use crate::finder::Finder;
use crate::groups::Groups;
use crate::naming::groups_in;
use crate::parser::EventMatcher;
use crate::rewriter::SpellingRewriter;
use json::Scratch;
use regex::Regex;
use std::alloc::{AllocError, Global};

/// How a log spells its events, other than in the layouts of `trace_log`.
#[derive(Debug, Drop)]
pub struct Spelling {
    place: Place,
    lines: usize,
    skips: bool,
}

/// Where the parts of an event stand.
#[derive(Debug, Drop)]
pub(crate) enum Place {
    /// In the groups of an expression's first match.
    Groups(Regex, Groups),
    /// In the members of a JSON object.
    Members(Fields),
}

/// The names of the members that give the parts of an event, with dots for depth.
#[derive(Clone, Copy, Debug)]
pub struct FieldNames<'n> {
    pub host: &'n str,
    pub clock: &'n str,
    pub event: &'n str,
}

impl Spelling {
    ghost use Rattle.std.specs.Prelude.{◌≡◌, [], IfOk, map, option_map, false, string_bytes};
    ghost use Rattle.trace_spelling.specs.Said.{rule_of};
    ghost use Rattle.trace_spelling.specs.Spellings.{spelling_rule, HasFields, HasParser};
    ghost use Rattle.trace_spelling.specs.Windows.{seen_waits};

    /// By a regular expression with the groups `host`, `clock` and `event`, as ShiViz reads it: a bare `{` is a brace.
    /// An event has so many lines, or as many as the expression has ends of lines, and one more. With `skips` lines
    /// that have no match are passed over.
    pub fn by_parser(
        alloc: Global,
        parser: &str,
        event_lines: Option<usize>,
        skips: bool,
    ) -> Result<Spelling, SpellingFault>
        ensures { IfOk result (HasParser parser.now event_lines skips) }
    {
        let expression = with_braces(alloc, parser)?;
        let regex = match Regex::new(alloc, expression.as_str()) {
            Ok(regex) => regex,
            Err(regex::Error::OutOfMemory) => return Err(SpellingFault::Memory),
            Err(why) => return Err(SpellingFault::Expression(why)),
        };
        let groups = groups_in(&regex)?;
        let lines = lines_of(event_lines, parser);
        Ok(Spelling {
            place: Place::Groups(regex, groups),
            lines,
            skips,
        })
    }

    /// By the members of JSON lines. With `skips` lines without these members are passed over.
    pub fn by_fields(
        alloc: Global,
        names: FieldNames<'_>,
        skips: bool,
    ) -> Result<Spelling, AllocError>
        ensures { IfOk result (HasFields names.entry.host.now names.entry.clock.now names.entry.event.now skips) }
    {
        let fields = Fields {
            host: FieldPath::new(alloc, names.host)?,
            clock: FieldPath::new(alloc, names.clock)?,
            event: FieldPath::new(alloc, names.event)?,
        };
        Ok(Spelling {
            place: Place::Members(fields),
            lines: 1,
            skips,
        })
    }

    /// A rewriter before the first line of a log.
    pub fn rewriter(&self, alloc: Global) -> Result<SpellingRewriter<'_>, AllocError>
        ensures rule { IfOk result (λ rewriter. rule_of rewriter ≡ spelling_rule self.now) }
        ensures none { IfOk result (λ rewriter. seen_waits rewriter.waits.items ≡ []) }
    {
        let finder = match &self.place {
            Place::Groups(regex, groups) => {
                let matcher = regex.matcher(alloc)?;
                Finder::Parser(EventMatcher {
                    matcher,
                    groups: *groups,
                })
            },
            Place::Members(fields) => Finder::Fields(MemberReader {
                fields,
                scratch: Scratch::new(alloc),
            }),
        };
        Ok(SpellingRewriter::new(alloc, finder, self.lines, self.skips))
    }
}
