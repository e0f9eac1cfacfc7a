//! Which option has an expression that isn't one.

use crate::fault::TraceFault;
use regex::{Error, Regex};
use std::alloc::{AllocError, Global};
use trace_condition::{ConditionFault, read_conditions};
use trace_pairs::read_hosts_condition;
use trace_words::{Options, TraceRequest};

/// Refuses the first expression of a request that isn't one, by its option. Words that ask no question are refused
/// elsewhere, and so are the expressions of a file.
pub fn check_expressions(alloc: Global, request: &TraceRequest<'_>) -> Result<(), TraceFault> {
    match request {
        TraceRequest::Trace(options) if options.are_fit() && options.questions.is_none() => {
            check_said(alloc, options)
        }
        _ => Ok(()),
    }
}

/// Refuses the first expression that isn't one, by its option.
fn check_said(alloc: Global, options: &Options<'_>) -> Result<(), TraceFault> {
    let read = match options.pair_words() {
        Some(words) => read_hosts_condition(alloc, &words).err(),
        None => read_conditions(alloc, &options.condition_words()).err(),
    };
    let Some(ConditionFault::Expression { host, why }) = read else {
        return Ok(());
    };
    let place = if options.asks_any_two() {
        bad_place_of_pair(alloc, options)?
    } else {
        bad_place(alloc, options, host.as_str())?
    };
    Err(TraceFault::Expression { place, why })
}

/// Where the expression of this host stands that isn't one.
fn bad_place(alloc: Global, options: &Options<'_>, host: &str) -> Result<String, AllocError> {
    let option = if is_of(&options.whiles, host) {
        "--while"
    } else if is_of(&options.ats, host) {
        "--at"
    } else if has_bad(alloc, &options.froms, host)? {
        "--from"
    } else {
        "--until"
    };
    format!(in alloc; "expression of {option} {host}")
}

/// Where the expression stands that isn't one, of those about any two hosts.
fn bad_place_of_pair(alloc: Global, options: &Options<'_>) -> Result<String, AllocError> {
    let (option, word) = match options.any_two {
        Some(word) => ("--any-two", word),
        None => ("--any-two-from", options.any_two_from.unwrap_or("")),
    };
    let (hosts, expression) = word.split_once('=').unwrap_or((word, ""));
    if is_bad(alloc, hosts)? {
        return format!(in alloc; "HOSTS of {option}");
    }
    if is_bad(alloc, expression)? {
        return format!(in alloc; "expression of {option}");
    }
    String::from_str(alloc, "expression of --any-two-until")
}

/// Whether one of the words is of this host.
fn is_of(words: &[&str], host: &str) -> bool {
    words.iter().any(|word| expression_of(word, host).is_some())
}

/// Whether the expression of this host in one of the words isn't one.
fn has_bad(alloc: Global, words: &[&str], host: &str) -> Result<bool, AllocError> {
    for word in words {
        if let Some(expression) = expression_of(word, host) {
            return is_bad(alloc, expression);
        }
    }
    Ok(false)
}

/// The expression of a word, if it is of this host.
fn expression_of<'a>(word: &'a str, host: &str) -> Option<&'a str> {
    let (name, expression) = word.split_once('=')?;
    if name == host { Some(expression) } else { None }
}

/// Whether a text isn't an expression.
fn is_bad(alloc: Global, source: &str) -> Result<bool, AllocError> {
    match Regex::new(alloc, source) {
        Ok(_) => Ok(false),
        Err(Error::OutOfMemory) => Err(AllocError),
        Err(_) => Ok(true),
    }
}
