//! What is wrong with a clock, in words.

use crate::clock::{clock_in, number_in};
use crate::cycle::{Seat, knows_back};
use crate::event::{Member, has_name, number_of};
use crate::explain::{BYTE_ORDER_MARK, Explainer, Words};
use crate::fault::{LineFault, LogFaultKind};
use crate::shown::Shown;
use json::Value;
use std::alloc::AllocError;

impl Explainer<'_> {
    /// What is wrong with a clock of a host.
    pub fn clock(&self, host: &str, what: &str, value: &Value<'_>) -> Words {
        let Value::Object(members) = value else {
            return self.not_a(what, value, "an object");
        };
        for member in members {
            if number_in(&member.1).is_none() {
                return self.number(member.0, &member.1);
            }
        }
        match clock_in(self.alloc, Some(value)) {
            Ok(clock) => self.numbers(host, clock.as_slice()),
            Err(LineFault::Memory) => Err(AllocError),
            Err(LineFault::Has(_)) => self.say("no clock"),
        }
    }

    /// What is wrong with a value that is no number of a clock.
    fn number(&self, name: &str, value: &Value<'_>) -> Words {
        let alloc = self.alloc;
        let Value::Number(text) = value else {
            let what = format!(in alloc; "\"{}\"", Shown(name))?;
            return self.not_a(what.as_str(), value, "a number");
        };
        let (name, number) = (Shown(name), Shown(text));
        if text.bytes().all(|byte| byte.is_ascii_digit()) {
            return format!(in alloc; "\"{name}\" is {number}, more than 4294967294");
        }
        if text.starts_with('-') {
            return format!(in alloc; "\"{name}\" is {number}");
        }
        format!(in alloc; "\"{name}\" is {number}, not in digits alone")
    }

    /// What is wrong with the numbers of a host's clock.
    fn numbers(&self, host: &str, clock: &[Member]) -> Words {
        let alloc = self.alloc;
        let shown = Shown(host);
        let now = number_of(host, clock);
        let earlier = self.hosts.last_clock(host);
        let before = number_of(host, earlier);
        match self.kind {
            LogFaultKind::Own if clock.iter().any(|member| has_name(member, host)) => {
                format!(in alloc; "{shown} is 0")
            }
            LogFaultKind::Own if host.starts_with(BYTE_ORDER_MARK) => {
                self.say("a byte order mark stands before the host")
            }
            LogFaultKind::Own => format!(in alloc; "no number of {shown}"),
            LogFaultKind::Order if now == before => format!(in alloc; "{shown} is {now} again"),
            LogFaultKind::Order => format!(in alloc;
                "{shown} is {now} after {before}, which looks like a restart of {shown}"
            ),
            LogFaultKind::Cycle => self.known_back(host, now, clock),
            _ => self.fallen(shown, earlier, clock),
        }
    }

    /// Which event of another host and this one know each other.
    fn known_back(&self, host: &str, own: u32, clock: &[Member]) -> Words {
        let alloc = self.alloc;
        let earlier = self.hosts.last_clock(host);
        for one in clock {
            let name = one.name.as_str();
            let has_risen = number_of(name, earlier) < one.number;
            if has_risen && knows_back(self.hosts, host, own, name, one.number, Seat::unknown()) {
                let back = number_of(host, self.hosts.last_clock(name));
                let (host, other) = (Shown(host), Shown(name));
                let known = one.number;
                let line = match self.hosts.number(name) {
                    Some(number) => self.marks.line(number),
                    None => None,
                };
                return match line {
                    Some(line) => format!(in alloc;
                        "{host} {own} knows {other} {known}, whose line {line} knows {host} {back}"
                    ),
                    None => format!(in alloc;
                        "{host} {own} knows {other} {known}, whose event before knows {host} {back}"
                    ),
                };
            }
        }
        self.say("no event knows this one")
    }

    /// Which number has fallen at a host.
    fn fallen(&self, host: Shown<'_>, earlier: &[Member], clock: &[Member]) -> Words {
        for one in earlier {
            let (name, before) = (one.name.as_str(), one.number);
            let now = number_of(name, clock);
            if now < before {
                let shown = Shown(name);
                if clock.iter().any(|member| has_name(member, name)) {
                    return format!(in self.alloc; "{shown} is {now} after {before} at {host}");
                }
                return format!(in self.alloc; "{shown} is missing after {before} at {host}");
            }
        }
        self.say("no number has fallen")
    }
}
