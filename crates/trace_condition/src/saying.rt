ghost use Rattle.std.specs.Prelude.{◌≡◌, ◌++◌, map, option_map, find, IfOk};
ghost use Rattle.std.specs.List.{list_any};
ghost use Rattle.std.specs.Str.{bytes_eq};
ghost use Rattle.trace_condition.specs.Asked.{all_read, saying_by, conditions_of, are_fit, are_distinct};
ghost use Rattle.trace_condition.specs.Sayings.{Gives, kind_rule, seen_words, seen_texts, seen_word};
ghost use Rattle.trace_condition.specs.Sayings.{seen_rule, seen_saying, host_said};

use crate::fault::ConditionFault;
use crate::rule::Rule;
use crate::word::{Word, word_in, words_in};
use std::alloc::{AllocError, Global};

/// The words HOST=EXPRESSION of a command line, in the order given for each option.
#[derive(Clone, Copy, Debug)]
pub struct ConditionWords<'a> {
    /// Those of `--while`.
    pub whiles: &'a [&'a str],
    /// Those of `--from`.
    pub froms: &'a [&'a str],
    /// Those of `--until`.
    pub untils: &'a [&'a str],
    /// Those of `--at`.
    pub ats: &'a [&'a str],
}

/// What is said of a host.
#[derive(Debug, Drop)]
pub(crate) struct Saying<'a> {
    pub host: &'a str,
    pub rule: Rule<&'a str>,
}

/// Which option a word stands at. That of a from has the untils.
#[derive(Debug, Drop)]
enum Kind<'w, 'a> {
    While,
    From(&'w [Word<'a>]),
    At,
}

/// The conditions that the words say.
pub(crate) fn sayings_of<'a>(
    alloc: Global,
    words: &ConditionWords<'a>,
) -> Result<Vec<Saying<'a>>, ConditionFault>
    ensures { Gives (λ sayings. map seen_saying sayings.items) result (conditions_of (seen_words words.now)) }
{
    let untils = words_in(alloc, words.untils)?;
    let from = Kind::From(untils.as_slice());
    let whiles = sayings_in(alloc, &Kind::While, words.whiles)?;
    let spans = sayings_in(alloc, &from, words.froms)?;
    let ats = sayings_in(alloc, &Kind::At, words.ats)?;
    let sayings = joined(whiles, spans, ats)?;
    if words.untils.len() == words.froms.len() && are_fit(&sayings) {
        Ok(sayings)
    } else {
        Err(ConditionFault::Usage)
    }
}

/// Three lists of sayings in one.
fn joined<'a>(
    mut first: Vec<Saying<'a>>,
    mut second: Vec<Saying<'a>>,
    mut third: Vec<Saying<'a>>,
) -> Result<Vec<Saying<'a>>, AllocError>
    ensures { IfOk result (λ all. all.items ≡ first.entry.items ++ second.entry.items ++ third.entry.items) }
{
    first.append(&mut second)?;
    first.append(&mut third)?;
    Ok(first)
}

/// What the words of an option say.
fn sayings_in<'a>(
    alloc: Global,
    kind: &Kind<'_, 'a>,
    texts: &[&'a str],
) -> Result<Vec<Saying<'a>>, ConditionFault>
    ensures { Gives (λ sayings. map seen_saying sayings.items) result
        (all_read (saying_by (kind_rule kind.now)) (seen_texts texts.now)) }
{
    let mut sayings = Vec::with_capacity(alloc, texts.len())?;
    for text in texts {
        let Some(saying) = saying_in(kind, text) else {
            return Err(ConditionFault::Usage);
        };
        sayings.push(saying)?;
    }
    Ok(sayings)
}

/// What a word of an option says.
fn saying_in<'a>(kind: &Kind<'_, 'a>, text: &'a str) -> Option<Saying<'a>>
    ensures { option_map seen_saying result ≡ saying_by (kind_rule kind.now) text.now }
{
    let word = word_in(text)?;
    let rule = rule_of(kind, &word)?;
    Some(Saying {
        host: word.host,
        rule,
    })
}

/// The rule of a word's expression.
fn rule_of<'a>(kind: &Kind<'_, 'a>, word: &Word<'a>) -> Option<Rule<&'a str>>
    ensures { option_map seen_rule result ≡ kind_rule kind.now (seen_word word.now) }
{
    match kind {
        Kind::While => Some(Rule::While(word.expression)),
        Kind::From(untils) => {
            let until = until_of(untils, word.host)?;
            Some(Rule::FromUntil(word.expression, until))
        }
        Kind::At => Some(Rule::At(word.expression)),
    }
}

/// The expression of the first until of a host.
fn until_of<'a>(untils: &[Word<'a>], host: &str) -> Option<&'a str>
    ensures { option_map (λ text. text.now) result
        ≡ option_map (λ until. until.expression.now) (find (λ until. bytes_eq until.host.now host.now) untils.now) }
{
    let until = untils.iter().find(|until| until.host == host)?;
    Some(until.expression)
}

/// Whether there is a saying, and no host has two.
#[tactic(auto, using(crate::proofs::Sayings::fit_as))]
fn are_fit(sayings: &[Saying<'_>]) -> bool
    ensures { result ≡ are_fit (map seen_saying sayings.now) }
{
    !sayings.is_empty() && are_distinct(sayings)
}

/// Whether no host has two sayings.
fn are_distinct(sayings: &[Saying<'_>]) -> bool
    ensures { result ≡ are_distinct (map host_said sayings.now) }
{
    for at in 0..sayings.len() {
        let saying = &sayings[at];
        let (_, others) = sayings.split_at(at + 1);
        if is_host(others, saying.host) {
            return false;
        }
    }
    true
}

/// Whether a host has one of these sayings.
fn is_host(sayings: &[Saying<'_>], host: &str) -> bool
    ensures { result ≡ list_any (λ saying. bytes_eq host.now (host_said saying)) sayings.now }
{
    sayings.iter().any(|saying| host == saying.host)
}
