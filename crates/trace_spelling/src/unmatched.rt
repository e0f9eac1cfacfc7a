//! What is said of a text that spells no event.
ghost use Rattle.std.specs.Prelude.{◌≡◌, IfOk, Some, string_bytes};
ghost use Rattle.json.specs.Json.{document};
ghost use Rattle.json.specs.Value.{value_view};
ghost use Rattle.regex.specs.Patterns.{find_str};
ghost use Rattle.regex.specs.Strings.{matcher_pattern};
ghost use Rattle.trace_spelling.specs.Unmatched.{missing_group, missing_member};
ghost use Rattle.trace_spelling.specs.Ways.{seen_fields};

use crate::fields::{Fields, MemberReader};
use crate::finder::Finder;
use crate::groups::Groups;
use json::{Error, Value};
use regex::Matcher;
use std::alloc::{AllocError, Global};

impl Finder<'_> {
    ghost use Rattle.trace_spelling.specs.Unmatched.{unmatched};
    ghost use Rattle.trace_spelling.specs.Ways.{seen_way};

    /// What is said of a text that spells no event: what it lacks.
    #[tactic(auto, using(crate::proofs::Found::unmatched_text, crate::proofs::Found::unmatched_bytes))]
    pub fn unmatched(&mut self, alloc: Global, text: &[u8]) -> Result<String, AllocError>
        ensures words { IfOk result (λ words. string_bytes words ≡ unmatched (seen_way self.old) text.now) }
        ensures same { seen_way self.new ≡ seen_way self.old }
    {
        let Ok(text) = str::from_utf8(text) else {
            return String::from_str(alloc, "not UTF-8");
        };
        match self {
            Finder::Parser(events) => {
                String::from_str(
                    alloc,
                    missing_group(&mut events.matcher, events.groups, text),
                )
            },
            Finder::Fields(members) => missing_member(alloc, members, text),
        }
    }
}

/// That an expression has no match in a text, or else which group takes no part in the first one.
fn missing_group(matcher: &mut Matcher<'_>, groups: Groups, text: &str) -> &'static str
    ensures words { result.now ≡ missing_group groups (find_str (matcher_pattern matcher.old) text.now 0) }
    ensures same { matcher_pattern matcher.new ≡ matcher_pattern matcher.old }
{
    let Some(found) = matcher.captures(text) else {
        return "the expression has no match here";
    };
    if found.get(groups.host).is_none() {
        return "the group (?<host>) takes no part in the match here";
    }
    if found.get(groups.clock).is_none() {
        return "the group (?<clock>) takes no part in the match here";
    }
    "the group (?<event>) takes no part in the match here"
}

/// That a text is no JSON object, or else which member it lacks.
fn missing_member(
    alloc: Global,
    members: &mut MemberReader<'_>,
    text: &str,
) -> Result<String, AllocError>
    ensures words { IfOk result (λ words.
        string_bytes words ≡ missing_member (seen_fields members.old.fields.now) (document text.now)) }
    ensures same { members.new.fields ≡ members.old.fields }
{
    match Value::parse(alloc, text, &mut members.scratch) {
        Ok(value) => missing_in(alloc, members.fields, &value),
        Err(Error::OutOfMemory) => Err(AllocError),
        Err(_) => String::from_str(alloc, "no JSON object"),
    }
}

/// The same of a value.
fn missing_in(alloc: Global, fields: &Fields, value: &Value<'_>) -> Result<String, AllocError>
    ensures { IfOk result (λ words.
        string_bytes words ≡ missing_member (seen_fields fields.now) (Some (value_view value.now))) }
{
    if fields.host.text_in(value).is_none() {
        return format!(in alloc; "no text \"{}\"", fields.host.whole);
    }
    if fields.clock.value_in(value).is_none() {
        return format!(in alloc; "no member \"{}\"", fields.clock.whole);
    }
    format!(in alloc; "no text \"{}\"", fields.event.whole)
}
