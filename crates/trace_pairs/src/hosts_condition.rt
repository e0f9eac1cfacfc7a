//! The condition of the hosts whose names match, from the words of a command line.
ghost use Rattle.std.specs.Prelude.{◌≡◌, option_map};
ghost use Rattle.trace_condition.specs.Conditions.{ReadsExpression, ReadsSaying};
ghost use Rattle.trace_pairs.specs.Words.{ReadsHosts, hosts_said, parts_in, seen_hosts, seen_parts, seen_words};

use crate::hosts_saying::{HostsSaying, WordParts};
use regex::Regex;
use std::alloc::Global;
use trace_condition::{Condition, ConditionFault, Rule};

/// Which hosts are asked for, by a regular expression over their names, and the condition of each of them. The
/// condition's host is the text of that expression.
#[derive(Debug, Drop)]
pub struct HostsCondition {
    pub hosts: Regex,
    pub condition: Condition,
}

/// The condition that words say: HOSTS=EXPRESSION, cut at its first `=`, of one option, and for a span the expression
/// of its end, which names no hosts. HOSTS may not be empty. A fault of an expression names HOSTS.
pub fn read_hosts_condition(
    alloc: Global,
    words: &Rule<&str>,
) -> Result<HostsCondition, ConditionFault>
    ensures { ReadsHosts (seen_words words.now) result }
{
    let Some(saying) = said_in(words) else {
        return Err(ConditionFault::Usage);
    };
    let hosts = expression(alloc, saying.hosts, saying.hosts)?;
    let condition = read_condition(alloc, &saying)?;
    Ok(HostsCondition { hosts, condition })
}

/// What words say.
fn said_in<'a>(words: &Rule<&'a str>) -> Option<HostsSaying<'a>>
    ensures { option_map seen_hosts result ≡ hosts_said (seen_words words.now) }
{
    match words {
        Rule::While(word) => {
            let parts = parts_in(word)?;
            let rule = Rule::While(parts.expression);
            Some(HostsSaying {
                hosts: parts.hosts,
                rule,
            })
        }
        Rule::FromUntil(word, until) => {
            let parts = parts_in(word)?;
            let rule = Rule::FromUntil(parts.expression, *until);
            Some(HostsSaying {
                hosts: parts.hosts,
                rule,
            })
        }
        Rule::At(word) => {
            let parts = parts_in(word)?;
            let rule = Rule::At(parts.expression);
            Some(HostsSaying {
                hosts: parts.hosts,
                rule,
            })
        }
    }
}

/// The parts of a word, if it has hosts.
#[tactic(auto, unfolding(trace_condition::specs::Asked::word_in), using(trace_condition::proofs::Cuts::cut_once))]
fn parts_in(word: &str) -> Option<WordParts<'_>>
    ensures { option_map seen_parts result ≡ parts_in word.now }
{
    let (hosts, expression) = word.split_once('=')?;
    if hosts.is_empty() {
        return None;
    }
    Some(WordParts { hosts, expression })
}

/// The condition that is said of hosts.
fn read_condition(alloc: Global, saying: &HostsSaying<'_>) -> Result<Condition, ConditionFault>
    ensures { ReadsSaying (seen_hosts saying.now) result }
{
    let rule = match &saying.rule {
        Rule::While(source) => Rule::While(expression(alloc, saying.hosts, source)?),
        Rule::FromUntil(from, until) => {
            let from = expression(alloc, saying.hosts, from)?;
            let until = expression(alloc, saying.hosts, until)?;
            Rule::FromUntil(from, until)
        }
        Rule::At(source) => Rule::At(expression(alloc, saying.hosts, source)?),
    };
    let host = String::from_str(alloc, saying.hosts)?;
    Ok(Condition { host, rule })
}

/// An expression of these hosts.
fn expression(alloc: Global, hosts: &str, source: &str) -> Result<Regex, ConditionFault>
    ensures { ReadsExpression hosts.now source.now result }
{
    match Regex::new(alloc, source) {
        Ok(regex) => Ok(regex),
        Err(regex::Error::OutOfMemory) => Err(ConditionFault::Memory),
        Err(why) => {
            let host = String::from_str(alloc, hosts)?;
            Err(ConditionFault::Expression { host, why })
        }
    }
}
