ghost use Rattle.std.specs.Prelude.{◌≡◌, map, IfOk};
ghost use Rattle.trace_condition.specs.Holding.{lasts};
ghost use Rattle.trace_condition.specs.Sayings.{seen_saying, seen_words};
ghost use Rattle.trace_condition.specs.Conditions.{ReadsExpression, ReadsSaying, ReadsSayings, ReadsWords, HaveHosts};

use crate::fault::ConditionFault;
use crate::rule::Rule;
use crate::saying::{ConditionWords, Saying, sayings_of};
use regex::Regex;
use std::alloc::Global;

/// The condition of a host: when it holds, by regular expressions over the texts of the host's events.
#[derive(Debug, Drop)]
pub struct Condition {
    pub host: String,
    pub rule: Rule<Regex>,
}

/// The conditions that the words of a command line say: those of `--while` in their order, then those of `--from`,
/// then those of `--at`. A host ends at the first `=` of its word, and an expression may be empty. All words are
/// looked at before the first expression is read.
pub fn read_conditions(
    alloc: Global,
    words: &ConditionWords<'_>,
) -> Result<Vec<Condition>, ConditionFault>
    ensures read { ReadsWords (seen_words words.now) result }
    ensures hosts { IfOk result (λ conditions. HaveHosts conditions.items) }
{
    let sayings = sayings_of(alloc, words)?;
    read_each(alloc, &sayings)
}

/// The conditions that are said.
fn read_each(alloc: Global, sayings: &[Saying<'_>]) -> Result<Vec<Condition>, ConditionFault>
    ensures { ReadsSayings (map seen_saying sayings.now) result }
{
    let mut conditions = Vec::with_capacity(alloc, sayings.len())?;
    for saying in sayings {
        let condition = read_one(alloc, saying)?;
        conditions.push(condition)?;
    }
    Ok(conditions)
}

/// The condition that is said of a host.
fn read_one(alloc: Global, saying: &Saying<'_>) -> Result<Condition, ConditionFault>
    ensures { ReadsSaying (seen_saying saying.now) result }
{
    let rule = match &saying.rule {
        Rule::While(source) => Rule::While(expression(alloc, saying.host, source)?),
        Rule::FromUntil(from, until) => {
            let from = expression(alloc, saying.host, from)?;
            let until = expression(alloc, saying.host, until)?;
            Rule::FromUntil(from, until)
        }
        Rule::At(source) => Rule::At(expression(alloc, saying.host, source)?),
    };
    let host = String::from_str(alloc, saying.host)?;
    Ok(Condition { host, rule })
}

/// An expression of a host.
fn expression(alloc: Global, host: &str, source: &str) -> Result<Regex, ConditionFault>
    ensures { ReadsExpression host.now source.now result }
{
    match Regex::new(alloc, source) {
        Ok(regex) => Ok(regex),
        Err(regex::Error::OutOfMemory) => Err(ConditionFault::Memory),
        Err(why) => {
            let host = String::from_str(alloc, host)?;
            Err(ConditionFault::Expression { host, why })
        }
    }
}

impl Condition {
    /// Whether what holds at an event lasts until the host's next event, as by `--while` and `--from`. By `--at` it's
    /// over with the event.
    pub fn lasts(&self) -> bool
        ensures { result ≡ lasts self.now.rule }
    {
        match self.rule {
            Rule::At(_) => false,
            _ => true,
        }
    }
}
