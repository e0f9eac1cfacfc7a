//! The words of one question, as its keys say them.
ghost use Rattle.std.specs.Prelude.{◌≡◌, option_map, IfOk};
ghost use Rattle.toml.specs.View.{table_view};
ghost use Rattle.trace_condition.specs.Sayings.{seen_words};
ghost use Rattle.trace_pairs.specs.Words.{seen_words as seen_rule};
ghost use Rattle.trace_questions.specs.Wordings.{any_two_in, are_of_states, asked_in, asked_of_hosts, asked_of_two};
ghost use Rattle.trace_questions.specs.Wordings.{host_words_in, span_in, state_in, words_of_hosts};
ghost use Rattle.trace_questions.specs.Seen.{seen_asked, seen_host_words};

use crate::keys::{HOST_KEYS, SPAN_KEYS, STATE_KEYS, flag_at, has_only, text_at, words_at};
use std::alloc::{AllocError, Global};
use toml::Table;
use trace_condition::{ConditionWords, Rule};

/// The words of a question.
#[derive(Debug, Drop)]
pub(crate) enum AskedWords<'t> {
    /// Of the conditions of hosts.
    OfHosts(HostWords<'t>),
    /// Of the conditions of hosts, of which it's asked whether they must have held at once. None is of a point.
    OfHostsDefinitely(HostWords<'t>),
    /// Of the condition of any two of the hosts whose names match.
    OfAnyTwo(Rule<&'t str>),
}

/// The words of the conditions of hosts, key by key.
#[derive(Debug, Drop)]
pub(crate) struct HostWords<'t> {
    pub whiles: Vec<&'t str>,
    pub froms: Vec<&'t str>,
    pub untils: Vec<&'t str>,
    pub ats: Vec<&'t str>,
}

impl HostWords<'_> {
    /// The words, as those of a command line.
    pub fn words(&self) -> ConditionWords<'_>
        ensures { seen_words result ≡ seen_host_words self.now }
    {
        ConditionWords {
            whiles: self.whiles.as_slice(),
            froms: self.froms.as_slice(),
            untils: self.untils.as_slice(),
            ats: self.ats.as_slice(),
        }
    }

    /// Whether no word is of a point.
    #[tactic(auto, using(crate::proofs::States::as_many_points))]
    fn are_of_states(&self) -> bool
        ensures { result ≡ are_of_states (seen_host_words self.now) }
    {
        self.ats.is_empty()
    }
}

/// The words of the question that a table is, by its keys.
pub(crate) fn asked_in<'t>(
    alloc: Global,
    table: &'t Table,
) -> Result<Option<AskedWords<'t>>, AllocError>
    ensures { IfOk result (λ found. option_map seen_asked found ≡ asked_in (table_view table.now)) }
{
    let Some(definitely) = flag_at(table, "definitely") else {
        return Ok(None);
    };
    if has_only(table, HOST_KEYS) {
        return asked_of_hosts(alloc, table, definitely);
    }
    Ok(asked_of_two(table, definitely))
}

/// The words of a question about hosts, of which it may be asked whether their conditions must have held at once.
fn asked_of_hosts<'t>(
    alloc: Global,
    table: &'t Table,
    definitely: bool,
) -> Result<Option<AskedWords<'t>>, AllocError>
    ensures { IfOk result (λ found.
        option_map seen_asked found ≡ asked_of_hosts definitely (table_view table.now)) }
{
    let Some(words) = host_words_in(alloc, table)? else {
        return Ok(None);
    };
    Ok(words_of_hosts(definitely, words))
}

/// These words of hosts as those of a question. It asks definitely of states alone.
fn words_of_hosts(definitely: bool, words: HostWords<'_>) -> Option<AskedWords<'_>>
    ensures { option_map seen_asked result ≡ words_of_hosts definitely (seen_host_words words.entry) }
{
    if !definitely {
        return Some(AskedWords::OfHosts(words));
    }
    if !words.are_of_states() {
        return None;
    }
    Some(AskedWords::OfHostsDefinitely(words))
}

/// The words of a question about any two hosts. It doesn't ask definitely.
fn asked_of_two(table: &Table, definitely: bool) -> Option<AskedWords<'_>>
    ensures { option_map seen_asked result ≡ asked_of_two definitely (table_view table.now) }
{
    if definitely {
        return None;
    }
    let rule = any_two_in(table)?;
    Some(AskedWords::OfAnyTwo(rule))
}

/// The words of a question about any two hosts, by its keys.
fn any_two_in(table: &Table) -> Option<Rule<&str>>
    ensures { option_map seen_rule result ≡ any_two_in (table_view table.now) }
{
    if has_only(table, STATE_KEYS) {
        return state_in(table);
    }
    if has_only(table, SPAN_KEYS) {
        return span_in(table);
    }
    None
}

/// The words of the four keys of a question about hosts.
fn host_words_in<'t>(alloc: Global, table: &'t Table) -> Result<Option<HostWords<'t>>, AllocError>
    ensures { IfOk result (λ found. option_map seen_host_words found ≡ host_words_in (table_view table.now)) }
{
    let Some(whiles) = words_at(alloc, table, "while")? else {
        return Ok(None);
    };
    let Some(froms) = words_at(alloc, table, "from")? else {
        return Ok(None);
    };
    let Some(untils) = words_at(alloc, table, "until")? else {
        return Ok(None);
    };
    let Some(ats) = words_at(alloc, table, "at")? else {
        return Ok(None);
    };
    Ok(Some(HostWords {
        whiles,
        froms,
        untils,
        ats,
    }))
}

/// The word of a state of any two hosts.
fn state_in(table: &Table) -> Option<Rule<&str>>
    ensures { option_map seen_rule result ≡ state_in (table_view table.now) }
{
    let word = text_at(table, "any-two")?;
    Some(Rule::While(word))
}

/// The words of a span of any two hosts.
fn span_in(table: &Table) -> Option<Rule<&str>>
    ensures { option_map seen_rule result ≡ span_in (table_view table.now) }
{
    let from = text_at(table, "any-two-from")?;
    let until = text_at(table, "any-two-until")?;
    Some(Rule::FromUntil(from, until))
}
