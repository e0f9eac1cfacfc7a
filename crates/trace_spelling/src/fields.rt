ghost use Rattle.std.specs.Prelude.{◌≡◌, map, option_map, string_bytes, IfOk};
ghost use Rattle.json.specs.Value.{value_view};
ghost use Rattle.trace_spelling.specs.Fields.{text_at, value_along, value_at};
ghost use Rattle.trace_spelling.specs.Ways.{seen_path};

use json::{Scratch, Value};
use std::alloc::{AllocError, Global};

/// Where a member of a JSON line stands: its name as it is, and the names on the way to it, which dots part.
#[derive(Debug, Drop)]
pub(crate) struct FieldPath {
    pub whole: String,
    pub names: Vec<String>,
}

/// Where the parts of an event stand.
#[derive(Debug, Drop)]
pub(crate) struct Fields {
    pub host: FieldPath,
    pub clock: FieldPath,
    pub event: FieldPath,
}

/// Reads the members of JSON objects, one after another.
#[derive(Drop)]
pub(crate) struct MemberReader<'s> {
    pub fields: &'s Fields,
    pub scratch: Scratch,
}

impl FieldPath {
    /// The path that a name says.
    pub fn new(alloc: Global, name: &str) -> Result<FieldPath, AllocError>
        ensures { IfOk result (λ path. string_bytes path.whole ≡ name.now) }
    {
        let mut names = Vec::new(alloc);
        for one in name.split('.') {
            let one = String::from_str(alloc, one)?;
            names.push(one)?;
        }
        let whole = String::from_str(alloc, name)?;
        Ok(FieldPath { whole, names })
    }

    /// The value that stands there.
    pub fn value_in<'v, 'a>(&self, value: &'v Value<'a>) -> Option<&'v Value<'a>>
        ensures { option_map (λ found. value_view found.now) result
            ≡ value_at (seen_path self.now) (value_view value.now) }
    {
        match value.get(self.whole.as_str()) {
            Some(found) => Some(found),
            None => value_along(&self.names, value),
        }
    }

    /// The text that stands there.
    pub fn text_in<'a>(&self, value: &Value<'a>) -> Option<&'a str>
        ensures { option_map (λ text. text.now) result ≡ text_at (seen_path self.now) (value_view value.now) }
    {
        self.value_in(value)?.as_str()
    }
}

/// The value to which names lead.
fn value_along<'v, 'a>(names: &[String], value: &'v Value<'a>) -> Option<&'v Value<'a>>
    ensures { option_map (λ found. value_view found.now) result
        ≡ value_along (map string_bytes names.now) (value_view value.now) }
{
    match names {
        [] => Some(value),
        [name, others @ ..] => value_along(others, value.get(name.as_str())?),
    }
}
