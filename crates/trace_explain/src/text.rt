//! The text of an explanation.
ghost use Rattle.std.specs.Prelude.{◌≡◌, ◌++◌, IfOk, OnOk, string_bytes};
ghost use Rattle.std.specs.List.{flat_map};
ghost use Rattle.trace_moment.specs.Moment.{watch_at};
ghost use Rattle.trace_explain.specs.Texts.{explanation_text, found_text, held_line, known_line, known_lines, known_of, name_at, none_lines};
ghost use Rattle.trace_explain.specs.Texts.{numbered, over_line, state_of};
ghost use Rattle.trace_explain.specs.Views.{watched_by};

use crate::history::History;
use crate::reason::{Explanation, HeldState, StateOver};
use std::alloc::AllocError;
use trace_moment::Lasting;
use trace_names::shown_name;

impl History {
    /// The text of an explanation of this history, a sentence a line. `Err` where memory runs out.
    pub fn text(&self, explanation: &Explanation) -> Result<String, AllocError>
        ensures { IfOk result (λ text. string_bytes text ≡ explanation_text (watched_by self.now) explanation.now) }
    {
        match explanation {
            Explanation::Found(held) => self.found_text(held),
            Explanation::NoneLeft { place, over } => self.none_text(*place, over),
        }
    }

    /// What is said of the members of the moment.
    fn found_text(&self, held: &[HeldState]) -> Result<String, AllocError>
        ensures { IfOk result (λ text. string_bytes text ≡ found_text (watched_by self.now) held.now) }
    {
        let mut text = String::new(self.alloc);
        self.push_states(&mut text, held)?;
        for place in 0..held.len() {
            self.push_known(&mut text, place, &held[place])?;
        }
        Ok(text)
    }

    /// Adds when each host's condition holds.
    fn push_states(&self, text: &mut String, held: &[HeldState]) -> Result<(), AllocError>
        ensures { OnOk result (string_bytes text.new ≡ string_bytes text.old
            ++ numbered (state_of (watched_by self.now)) 0 held.now) }
    {
        for place in 0..held.len() {
            self.push_state(text, place, &held[place])?;
        }
        Ok(())
    }

    /// Adds when the condition of the host at this place holds.
    fn push_state(
        &self,
        text: &mut String,
        place: usize,
        held: &HeldState,
    ) -> Result<(), AllocError>
        ensures { OnOk result (string_bytes text.new ≡ string_bytes text.old
            ++ state_of (watched_by self.now) place held.now) }
    {
        let name = self.name(place)?;
        match self.lasting(place) {
            Lasting::While => push_held(text, name.as_str(), held.begun, held.until),
            Lasting::At => {
                let line = held.line;
                writeln!(text, "{name}'s state is the event at line {line}")
            }
        }
    }

    /// Adds what the member of the host at this place knows of the other hosts.
    fn push_known(
        &self,
        text: &mut String,
        place: usize,
        held: &HeldState,
    ) -> Result<(), AllocError>
        ensures { OnOk result (string_bytes text.new ≡ string_bytes text.old
            ++ known_lines (watched_by self.now) place held.now) }
    {
        for other in 0..held.knows.len() {
            self.push_known_of(text, place, held.line, other, held.knows[other])?;
        }
        Ok(())
    }

    /// Adds what the event at this line of the host at a place knows of another host.
    fn push_known_of(
        &self,
        text: &mut String,
        place: usize,
        line: u64,
        other: usize,
        known: Option<u64>,
    ) -> Result<(), AllocError>
        ensures { OnOk result (string_bytes text.new ≡ string_bytes text.old
            ++ known_of (watched_by self.now) place line other known) }
    {
        if other == place {
            return Ok(());
        }
        let name = self.name(place)?;
        let other = self.name(other)?;
        push_pair(text, name.as_str(), line, other.as_str(), known)
    }

    /// Why no state of the host at this place is left.
    fn none_text(&self, place: usize, over: &[StateOver]) -> Result<String, AllocError>
        ensures { IfOk result (λ text. string_bytes text ≡ none_lines (watched_by self.now) place over.now) }
    {
        let mut text = String::new(self.alloc);
        let name = self.name(place)?;
        if over.is_empty() {
            writeln!(text, "{name}'s condition holds at no event")?;
            return Ok(text);
        }
        writeln!(text, "no state of {name} is left")?;
        self.push_each_over(&mut text, place, over)?;
        Ok(text)
    }

    /// Adds why each of these states of the host at this place is in no moment.
    fn push_each_over(
        &self,
        text: &mut String,
        place: usize,
        over: &[StateOver],
    ) -> Result<(), AllocError>
        ensures { OnOk result (string_bytes text.new ≡ string_bytes text.old
            ++ flat_map (over_line (watched_by self.now) place) over.now) }
    {
        for one in over {
            self.push_over(text, place, one)?;
        }
        Ok(())
    }

    /// Adds why a state of the host at this place is in no moment.
    fn push_over(&self, text: &mut String, place: usize, over: &StateOver) -> Result<(), AllocError>
        ensures { OnOk result (string_bytes text.new ≡ string_bytes text.old
            ++ over_line (watched_by self.now) place over.now) }
    {
        let name = self.name(place)?;
        let at = self.name(over.at_place)?;
        let (line, at_line, known) = (over.line, over.at_line, over.knows_up_to);
        writeln!(
            text,
            "{name} line {line} is over at line {at_line} of {at}, which knows {name} up to line {known}"
        )
    }

    /// The name of the watched host at this place, as a line shows it.
    fn name(&self, place: usize) -> Result<String, AllocError>
        ensures { IfOk result (λ name. string_bytes name ≡ name_at (watched_by self.now) place) }
    {
        shown_name(self.alloc, self.host(place))
    }

    /// The watched host at this place.
    fn host(&self, place: usize) -> &str
        ensures { result.now ≡ (watch_at (watched_by self.now) place).host }
    {
        match self.hosts.get(place) {
            Some(host) => host.watched.host.as_str(),
            None => "",
        }
    }

    /// How long the states of the watched host at this place last.
    fn lasting(&self, place: usize) -> Lasting
        ensures { result ≡ (watch_at (watched_by self.now) place).lasting }
    {
        match self.hosts.get(place) {
            Some(host) => host.watched.lasting,
            None => Lasting::While,
        }
    }
}

/// Adds when a condition holds: from one line, until another or still.
fn push_held(
    text: &mut String,
    name: &str,
    begun: u64,
    until: Option<u64>,
) -> Result<(), AllocError>
    ensures { OnOk result (string_bytes text.new ≡ string_bytes text.old ++ held_line name.now begun until) }
{
    match until {
        Some(until) => writeln!(
            text,
            "{name}'s condition holds from line {begun} until line {until}"
        ),
        None => writeln!(text, "{name}'s condition holds from line {begun} on"),
    }
}

/// Adds up to which line of another host the event at a line knows it.
fn push_pair(
    text: &mut String,
    name: &str,
    line: u64,
    other: &str,
    known: Option<u64>,
) -> Result<(), AllocError>
    ensures { OnOk result (string_bytes text.new
        ≡ string_bytes text.old ++ known_line name.now line other.now known) }
{
    match known {
        Some(known) => writeln!(
            text,
            "{name} at line {line} knows {other} up to line {known}"
        ),
        None => writeln!(text, "{name} at line {line} knows no line of {other}"),
    }
}
