//! What a page says of the hosts of a log: the conditions of those that a question asks about.
use crate::asked_hosts::NamedHost;
use draw_page::{HostRule, HostWatch, PageHost};
use regex::Regex;
use std::alloc::{AllocError, Global};
use trace_condition::Rule;

/// These hosts, with the conditions of the question at this place.
pub(crate) fn hosts_of(
    alloc: Global,
    named: &[NamedHost<'_>],
    question: usize,
) -> Result<Vec<PageHost>, AllocError> {
    let mut hosts = Vec::with_capacity(alloc, named.len())?;
    for host in named {
        let name = host.name.clone()?;
        let watch = watch_of(alloc, host, question)?;
        hosts.push(PageHost { name, watch })?;
    }
    Ok(hosts)
}

/// The conditions of these hosts, where the question at this place asks about them.
pub(crate) fn watches_of(
    alloc: Global,
    named: &[NamedHost<'_>],
    question: usize,
) -> Result<Vec<Option<HostWatch>>, AllocError> {
    let mut watches = Vec::with_capacity(alloc, named.len())?;
    for host in named {
        watches.push(watch_of(alloc, host, question)?)?;
    }
    Ok(watches)
}

/// The condition of a host, if the question at this place asks about it.
fn watch_of(
    alloc: Global,
    host: &NamedHost<'_>,
    question: usize,
) -> Result<Option<HostWatch>, AllocError> {
    match host.rule(question) {
        Some(rule) => Ok(Some(watch_by(alloc, rule)?)),
        None => Ok(None),
    }
}

/// A rule as a page says it.
fn watch_by(alloc: Global, rule: &Rule<Regex>) -> Result<HostWatch, AllocError> {
    match rule {
        Rule::While(regex) => Ok(HostWatch {
            rule: HostRule::While,
            condition: String::from_str(alloc, regex.as_str())?,
        }),
        Rule::At(regex) => Ok(HostWatch {
            rule: HostRule::At,
            condition: String::from_str(alloc, regex.as_str())?,
        }),
        Rule::FromUntil(from, until) => {
            let (from, until) = (from.as_str(), until.as_str());
            Ok(HostWatch {
                rule: HostRule::While,
                condition: format!(in alloc; "from {from} until {until}")?,
            })
        }
    }
}
