ghost use Rattle.std.specs.Prelude.{◌≡◌, true, string_bytes, IfSome};
ghost use Rattle.std.specs.Str.{bytes_eq};
ghost use Rattle.trace_log.specs.Clock.{are_distinct, number_of};
ghost use Rattle.trace_log.specs.Names.{names_in};
ghost use Rattle.trace_log.specs.Seen.{seen_clock};

/// A member of a clock: the name of a host, and its number.
#[derive(Debug, Drop)]
pub struct Member {
    pub name: String,
    pub number: u32,
}

/// An event of a log: its host, its clock with the members in the order of the line, and its text. No name stands twice
/// in the clock.
#[derive(Clone, Copy, Debug)]
pub struct Event<'a> {
    pub host: &'a str,
    pub clock: &'a [Member],
    pub text: &'a str,
    ghost distinct: { are_distinct (names_in (seen_clock clock.now)) ≡ true },
}

/// An event, with the line of its text, counted from 1.
#[derive(Clone, Copy, Debug)]
pub struct Logged<'a> {
    pub line: u64,
    /// The line of an event that it knows without all that this knew, if there is one: then it forgets.
    pub forgets: Option<u64>,
    pub event: Event<'a>,
}

/// The number of a host in a clock, and 0 where it has none.
pub fn number_of(host: &str, clock: &[Member]) -> u32
    ensures { result ≡ number_of host.now (seen_clock clock.now) }
{
    let mut number = 0;
    for member in clock {
        if member.name.as_str() == host {
            number = member.number.max(number);
        }
    }
    number
}

/// The number of a host in a clock in which no name stands twice, if the host stands at this place of it.
pub fn number_at(host: &str, clock: &[Member], place: usize) -> Option<u32>
    ensures { are_distinct (names_in (seen_clock clock.now)) ≡ true →
        IfSome result (λ number. number ≡ number_of host.now (seen_clock clock.now)) }
{
    if place >= clock.len() {
        return None;
    }
    let member = &clock[place];
    if !has_name(member, host) {
        return None;
    }
    Some(member.number)
}

/// The first place of a host in a clock, and the clock's length where it has none. No contract rests on it: it is a
/// guess for `number_at`.
pub fn place_of(host: &str, clock: &[Member]) -> usize {
    for place in 0..clock.len() {
        if has_name(&clock[place], host) {
            return place;
        }
    }
    clock.len()
}

/// Whether a member of a clock has this name.
pub(crate) fn has_name(member: &Member, name: &str) -> bool
    ensures { result ≡ bytes_eq (string_bytes member.now.name) name.now }
{
    member.name.as_str() == name
}
