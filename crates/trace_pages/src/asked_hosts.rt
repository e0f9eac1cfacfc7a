//! The hosts that questions ask about, and at which of their events the conditions hold.
use regex::{Matcher, Regex};
use std::alloc::{AllocError, Global};
use trace_asking::Subject;
use trace_condition::{Condition, Judge, Rule};

/// The hosts that a question asks about, each with its condition.
#[derive(Drop)]
pub(crate) enum AskedHosts<'q> {
    /// Those of these conditions.
    Named(&'q [Condition]),
    /// Those whose names match.
    Matching(MatchingHosts<'q>),
}

/// The hosts whose names match, all under one condition.
#[derive(Drop)]
pub(crate) struct MatchingHosts<'q> {
    names: Matcher<'q>,
    condition: &'q Condition,
}

/// A host that was named, with the condition of each question that asks about it.
#[derive(Drop)]
pub(crate) struct NamedHost<'q> {
    pub name: String,
    asked: Vec<Option<Asked<'q>>>,
}

/// A condition, and its judge.
#[derive(Drop)]
struct Asked<'q> {
    condition: &'q Condition,
    judge: Judge<'q>,
}

impl<'q> AskedHosts<'q> {
    /// The hosts that are asked about.
    pub fn new(alloc: Global, subject: &'q Subject) -> Result<AskedHosts<'q>, AllocError> {
        match subject {
            Subject::Hosts(conditions) | Subject::Definitely(conditions) => {
                Ok(AskedHosts::Named(conditions))
            }
            Subject::AnyTwo(any_two) => Ok(AskedHosts::Matching(MatchingHosts {
                names: any_two.hosts.matcher(alloc)?,
                condition: &any_two.condition,
            })),
        }
    }

    /// The condition of a host, if it is asked about, before the host's first event.
    fn asked(&mut self, alloc: Global, host: &str) -> Result<Option<Asked<'q>>, AllocError> {
        match self.condition_of(host) {
            Some(condition) => Ok(Some(Asked {
                condition,
                judge: condition.judge(alloc)?,
            })),
            None => Ok(None),
        }
    }

    /// The condition of a host, if it is asked about.
    fn condition_of(&mut self, host: &str) -> Option<&'q Condition> {
        match self {
            AskedHosts::Named(conditions) => conditions
                .iter()
                .find(|condition| condition.host.as_str() == host),
            AskedHosts::Matching(hosts) => hosts.condition_of(host),
        }
    }
}

impl<'q> MatchingHosts<'q> {
    /// The condition of a host, if its name matches.
    fn condition_of(&mut self, host: &str) -> Option<&'q Condition> {
        if self.names.is_match(host) {
            Some(self.condition)
        } else {
            None
        }
    }
}

impl<'q> NamedHost<'q> {
    /// A host of this name, before its first event, which these questions may ask about.
    pub fn new(
        alloc: Global,
        questions: &mut [AskedHosts<'q>],
        name: &str,
    ) -> Result<NamedHost<'q>, AllocError> {
        let mut asked = Vec::with_capacity(alloc, questions.len())?;
        for question in questions {
            asked.push(question.asked(alloc, name)?)?;
        }
        Ok(NamedHost {
            name: String::from_str(alloc, name)?,
            asked,
        })
    }

    /// The rule of its condition, if the question at this place asks about it.
    pub fn rule(&self, question: usize) -> Option<&Rule<Regex>> {
        match self.asked.get(question) {
            Some(Some(asked)) => {
                let condition = asked.condition;
                Some(&condition.rule)
            }
            _ => None,
        }
    }

    /// Whether the question at this place asks about it, and its condition holds at its next event.
    pub fn holds(&mut self, question: usize, text: &str) -> bool {
        match self.asked.get_mut(question) {
            Some(Some(asked)) => asked.judge.holds(text),
            _ => false,
        }
    }
}
