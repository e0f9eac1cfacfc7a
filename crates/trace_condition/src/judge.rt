ghost use Rattle.std.specs.Prelude.{◌≡◌, [], ◌∷◌, ◌++◌, IfOk};
ghost use Rattle.trace_condition.specs.Holding.{holds_next, holds_at_last};
ghost use Rattle.trace_condition.specs.Conditions.{rule_of};
ghost use Rattle.trace_condition.specs.Judging.{patterns_of, HasJudged};

use crate::condition::Condition;
use crate::rule::Rule;
use regex::Matcher;
use std::alloc::{AllocError, Global};

/// Judges the events of a host in turn: whether the host's condition holds at them.
#[derive(Drop)]
pub struct Judge<'c> {
    rule: Rule<Matcher<'c>>,
    held: bool,
}

impl Condition {
    /// A judge of the host's events, before the first of them.
    pub fn judge(&self, alloc: Global) -> Result<Judge<'_>, AllocError>
        ensures { IfOk result (HasJudged (rule_of self.now) []) }
    {
        let rule = match &self.rule {
            Rule::While(regex) => Rule::While(regex.matcher(alloc)?),
            Rule::FromUntil(from, until) => {
                let from = from.matcher(alloc)?;
                let until = until.matcher(alloc)?;
                Rule::FromUntil(from, until)
            }
            Rule::At(regex) => Rule::At(regex.matcher(alloc)?),
        };
        Ok(Judge { rule, held: false })
    }
}

impl Judge<'_> {
    /// Whether the condition holds at the host's next event, which has this text.
    pub fn holds(&mut self, text: &str) -> bool
        ensures { (rule : _) (texts : _) → HasJudged rule texts self.old →
            (result ≡ holds_at_last rule (texts ++ text.now ∷ [])) × HasJudged rule (texts ++ text.now ∷ []) self.new }
    {
        self.held = holds_next(&mut self.rule, self.held, text);
        self.held
    }
}

/// Whether a condition holds at an event with this text, by whether it held at the host's event before.
fn holds_next(rule: &mut Rule<Matcher<'_>>, held: bool, text: &str) -> bool
    ensures holds { result ≡ holds_next (patterns_of rule.old) held text.now }
    ensures same { patterns_of rule.new ≡ patterns_of rule.old }
{
    match rule {
        Rule::While(pattern) => pattern.is_match(text),
        Rule::FromUntil(_, until) if held => !until.is_match(text),
        Rule::FromUntil(from, _) => from.is_match(text),
        Rule::At(pattern) => pattern.is_match(text),
    }
}
