//! The words that ask about any two of the hosts whose names match.
ghost use Rattle.std.specs.Prelude.{◌≡◌, option_map};
ghost use Rattle.trace_pairs.specs.Words.{seen_words};
ghost use Rattle.trace_words.specs.AnyTwo.{pair_rule, pair_words};

use crate::options::Options;
use trace_condition::Rule;

impl<'a> Options<'a> {
    /// The words that ask about any two hosts, if they ask one question.
    pub fn pair_words(&self) -> Option<Rule<&'a str>>
        ensures { option_map seen_words result ≡ pair_words self.now }
    {
        pair_rule(self.any_two, self.any_two_from, self.any_two_until)
    }

    /// Whether the words that ask about any two hosts say none: no `=`, or nothing before it.
    pub fn names_no_hosts(&self) -> bool {
        let word = self.any_two.or(self.any_two_from).unwrap_or("");
        match word.split_once('=') {
            Some((hosts, _)) => hosts.is_empty(),
            None => true,
        }
    }
}

/// The rule that words say about any two hosts, if they ask one question.
fn pair_rule<'a>(
    word: Option<&'a str>,
    from: Option<&'a str>,
    until: Option<&'a str>,
) -> Option<Rule<&'a str>>
    ensures { option_map seen_words result ≡ pair_rule word.entry from.entry until.entry }
{
    match (word, from, until) {
        (Some(word), None, None) => Some(Rule::While(word)),
        (None, Some(from), Some(until)) => Some(Rule::FromUntil(from, until)),
        _ => None,
    }
}
