//! Why words say no conditions.
use std::alloc::{AllocError, Global};
use trace_condition::ConditionWords;

/// Why these words say no conditions, in a line. The `dashes` stand before the word of each option; where there are
/// none, it's quoted as the key of a file. A line may have the control characters of the words.
pub fn why_no_conditions(
    alloc: Global,
    words: &ConditionWords<'_>,
    dashes: &str,
) -> Result<String, AllocError> {
    let (before, after) = if dashes.is_empty() {
        ("\"", "\"")
    } else {
        (dashes, "")
    };
    if let Some((option, word)) = bad_word(words) {
        return format!(in alloc; "{before}{option}{after} takes HOST=REGEX, and not '{word}'");
    }
    let froms = hosts_of(alloc, words.froms)?;
    let untils = hosts_of(alloc, words.untils)?;
    if let Some(host) = missing_in(&froms, &untils) {
        return format!(in alloc; "{before}from{after} {host} needs an {before}until{after} {host}");
    }
    if let Some(host) = missing_in(&untils, &froms) {
        return format!(in alloc; "{before}until{after} {host} needs a {before}from{after} {host}");
    }
    let mut hosts = hosts_of(alloc, words.whiles)?;
    hosts.extend_from_slice(&froms)?;
    hosts.append(&mut hosts_of(alloc, words.ats)?)?;
    if let Some(host) = repeated_in(&hosts) {
        return format!(in alloc; "{host} has more than one condition");
    }
    if let Some(host) = repeated_in(&untils) {
        return format!(in alloc;
            "{before}from{after} {host} takes one {before}until{after} {host}, and there are more"
        );
    }
    format!(in alloc;
        "no host has a condition: give {before}while{after}, {before}from{after} and {before}until{after}, \
         or {before}at{after}"
    )
}

/// The first word that has no host or no expression, if there is one, with the option that it stands at.
pub(crate) fn bad_word<'a>(words: &ConditionWords<'a>) -> Option<(&'static str, &'a str)> {
    let lists = [
        ("while", words.whiles),
        ("from", words.froms),
        ("until", words.untils),
        ("at", words.ats),
    ];
    for (option, words) in lists {
        for word in words {
            if host_of(word).is_empty() || !word.contains('=') {
                return Some((option, word));
            }
        }
    }
    None
}

/// What stands before the first `=`.
fn host_of<'a>(word: &'a str) -> &'a str {
    match word.split_once('=') {
        Some((host, _)) => host,
        None => word,
    }
}

/// The hosts of these words.
fn hosts_of<'a>(alloc: Global, words: &[&'a str]) -> Result<Vec<&'a str>, AllocError> {
    let mut hosts = Vec::with_capacity(alloc, words.len())?;
    for word in words {
        hosts.push(host_of(word))?;
    }
    Ok(hosts)
}

/// The first of the hosts that isn't among the others.
fn missing_in<'a>(hosts: &[&'a str], others: &[&'a str]) -> Option<&'a str> {
    hosts.iter().find(|host| !others.contains(host)).copied()
}

/// The first of the hosts that stands again behind it.
fn repeated_in<'a>(hosts: &[&'a str]) -> Option<&'a str> {
    for (place, host) in hosts.iter().enumerate() {
        if hosts[place + 1..].contains(host) {
            return Some(host);
        }
    }
    None
}
