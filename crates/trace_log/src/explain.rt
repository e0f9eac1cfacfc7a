//! What is wrong with a line, in words. The line is looked at again; no answer depends on it.

use crate::fault::LogFaultKind;
use crate::hosts::Hosts;
use crate::marks::Marks;
use crate::numbered::{LineSays, numbered_in};
use crate::repeated::repeated_in;
use crate::shown::{Printed, Shown};
use json::{Error, Scratch, Value};
use std::alloc::{AllocError, Global};

/// What some editors put before the first character of a file.
pub(crate) const BYTE_ORDER_MARK: char = '\u{feff}';

/// What a line is to say.
#[derive(Clone, Copy, Debug)]
pub(crate) enum Part {
    /// A whole event, in one JSON object.
    Event,
    /// A host and its clock.
    Stamp,
    /// The text of an event.
    Text,
}

/// Says what is wrong with lines, by what is kept of the lines before them.
#[derive(Clone, Copy)]
pub(crate) struct Explainer<'l> {
    pub alloc: Global,
    pub hosts: &'l Hosts,
    pub marks: &'l Marks,
    pub kind: LogFaultKind,
}

/// Words, or that memory ran out.
pub(crate) type Words = Result<String, AllocError>;

impl Explainer<'_> {
    /// What is wrong with a line.
    pub fn explain(&self, part: Part, line: &[u8]) -> Words {
        if self.kind == LogFaultKind::Long {
            return self.say("more than 65536 bytes");
        }
        let Ok(text) = str::from_utf8(line) else {
            return self.say("not UTF-8");
        };
        if text.starts_with(BYTE_ORDER_MARK) {
            return self.say(
                "a byte order mark stands at the beginning of the line; a log has none",
            );
        }
        match part {
            Part::Event => self.event(text),
            Part::Stamp => self.stamp(text),
            Part::Text => self.say("no text"),
        }
    }

    /// What is wrong with a line that says what the line with a number says.
    pub fn numbered(&self, line: &[u8]) -> Words {
        match numbered_in(line) {
            Ok(one) => match one.says {
                LineSays::Event(text) => self.explain(Part::Event, text.as_bytes()),
                LineSays::Fault(LogFaultKind::Waits, words) => self.say(words),
                LineSays::Fault(_, words) => format!(in self.alloc; "{}", Printed(words)),
            },
            Err(LogFaultKind::Long) => self.say("more than 65536 bytes"),
            Err(_) => self.say("neither NUMBER JSON nor NUMBER!KIND WORDS"),
        }
    }

    pub fn say(&self, words: &str) -> Words {
        String::from_str(self.alloc, words)
    }

    /// What is wrong with an event in one JSON object.
    fn event(&self, text: &str) -> Words {
        let mut scratch = Scratch::new(self.alloc);
        let value = match Value::parse(self.alloc, text, &mut scratch) {
            Ok(value) => value,
            Err(Error::OutOfMemory) => return Err(AllocError),
            Err(_) => return format!(in self.alloc; "not JSON: {}", Shown(text)),
        };
        match self.kind {
            LogFaultKind::Text => self.members(&value),
            _ => self.object(&value),
        }
    }

    /// What is wrong with the texts of an event.
    fn members(&self, value: &Value<'_>) -> Words {
        let Value::Object(_) = value else {
            return self.not_a("the line", value, "an object");
        };
        if let Some(words) = self.text_of("host", value)? {
            return Ok(words);
        }
        if let Some(words) = self.text_of("event", value)? {
            return Ok(words);
        }
        self.say("no event")
    }

    /// What is wrong with the text of a member, if anything is.
    fn text_of(&self, name: &str, value: &Value<'_>) -> Result<Option<String>, AllocError> {
        match value.get(name) {
            None => Ok(Some(format!(in self.alloc; "no member \"{name}\"")?)),
            Some(Value::String(_)) => Ok(None),
            Some(other) => {
                let what = format!(in self.alloc; "\"{name}\"")?;
                Ok(Some(self.not_a(what.as_str(), other, "a text")?))
            }
        }
    }

    /// That something is one thing and not another.
    pub fn not_a(&self, what: &str, value: &Value<'_>, wanted: &str) -> Words {
        match value {
            Value::Null => format!(in self.alloc; "{what} is null, not {wanted}"),
            Value::Bool(true) => format!(in self.alloc; "{what} is true, not {wanted}"),
            Value::Bool(false) => format!(in self.alloc; "{what} is false, not {wanted}"),
            Value::Number(text) => format!(in self.alloc;
                "{what} is {}, not {wanted}",
                Shown(text)
            ),
            Value::String(text) => {
                format!(in self.alloc; "{what} is \"{}\", not {wanted}", Shown(text))
            }
            Value::Array(_) => format!(in self.alloc; "{what} is a list, not {wanted}"),
            Value::Object(_) => format!(in self.alloc; "{what} is an object, not {wanted}"),
        }
    }

    /// What is wrong with the clock of an event in one JSON object.
    fn object(&self, value: &Value<'_>) -> Words {
        if let Some(name) = repeated_in(self.alloc, value)? {
            return self.twice(name);
        }
        let host = match value.get("host") {
            Some(Value::String(host)) => host,
            _ => "",
        };
        match value.get("clock") {
            None => self.say("no member \"clock\""),
            Some(clock) => self.clock(host, "\"clock\"", clock),
        }
    }

    /// Whether a text is a JSON object.
    fn is_object(&self, text: &str) -> Result<bool, AllocError> {
        let mut scratch = Scratch::new(self.alloc);
        match Value::parse(self.alloc, text, &mut scratch) {
            Ok(Value::Object(_)) => Ok(true),
            Err(Error::OutOfMemory) => Err(AllocError),
            _ => Ok(false),
        }
    }

    fn twice(&self, name: &str) -> Words {
        format!(in self.alloc; "\"{}\" twice", Shown(name))
    }

    /// What is wrong with a host and its clock.
    fn stamp(&self, text: &str) -> Words {
        let Some((host, rest)) = text.split_once(' ') else {
            return format!(in self.alloc; "no space behind the host: {}", Shown(text));
        };
        let mut scratch = Scratch::new(self.alloc);
        let value = match Value::parse(self.alloc, rest, &mut scratch) {
            Ok(value) => value,
            Err(Error::OutOfMemory) => return Err(AllocError),
            Err(_) if self.is_object(text)? => {
                return self.say("a JSON object, which --form lines reads");
            }
            Err(_) => return format!(in self.alloc; "not JSON: {}", Shown(rest)),
        };
        if let Some(name) = repeated_in(self.alloc, &value)? {
            return self.twice(name);
        }
        self.clock(host, "the clock", &value)
    }
}
