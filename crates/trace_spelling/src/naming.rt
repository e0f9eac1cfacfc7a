ghost use Rattle.std.specs.Prelude.{◌<◌, IfOk};
ghost use Rattle.regex.specs.Names.{IsIndexOf};
ghost use Rattle.regex.specs.Strings.{regex_names};
ghost use Rattle.trace_spelling.specs.GroupNames.{NamesGroups};

use crate::fault::SpellingFault;
use crate::groups::Groups;
use regex::Regex;

/// The groups of an expression that have the names of the parts.
pub(crate) fn groups_in(regex: &Regex) -> Result<Groups, SpellingFault>
    ensures { IfOk result (NamesGroups regex.now) }
{
    Ok(Groups {
        host: group_named(regex, "host")?,
        clock: group_named(regex, "clock")?,
        event: group_named(regex, "event")?,
    })
}

/// The number of the group with this name.
fn group_named(regex: &Regex, name: &'static str) -> Result<usize, SpellingFault>
    ensures part { IfOk result (λ number. 0 < number) }
    ensures named { IfOk result (λ number. IsIndexOf (regex_names regex.now) name.now (Some number)) }
{
    match regex.capture_index(name) {
        Some(number) if number > 0 => Ok(number),
        _ => Err(SpellingFault::Group(name)),
    }
}
