ghost use Rattle.std.specs.Prelude.{◌≡◌, map, option_map};
ghost use Rattle.trace_condition.specs.Asked.{word_in, all_read};
ghost use Rattle.trace_condition.specs.Sayings.{Gives, seen_word, seen_texts};

use crate::fault::ConditionFault;
use std::alloc::Global;

/// A word HOST=EXPRESSION, cut at its first `=`.
#[derive(Debug, Drop)]
pub(crate) struct Word<'a> {
    pub host: &'a str,
    pub expression: &'a str,
}

/// The word that a text is, if it has a host.
#[tactic(auto, unfolding(crate::specs::Asked::word_in), using(crate::proofs::Cuts::cut_once))]
pub(crate) fn word_in(text: &str) -> Option<Word<'_>>
    ensures { option_map seen_word result ≡ word_in text.now }
{
    let (host, expression) = text.split_once('=')?;
    if host.is_empty() {
        return None;
    }
    Some(Word { host, expression })
}

/// The words that texts are.
pub(crate) fn words_in<'a>(
    alloc: Global,
    texts: &[&'a str],
) -> Result<Vec<Word<'a>>, ConditionFault>
    ensures { Gives (λ words. map seen_word words.items) result (all_read word_in (seen_texts texts.now)) }
{
    let mut words = Vec::with_capacity(alloc, texts.len())?;
    for text in texts {
        let Some(word) = word_in(text) else {
            return Err(ConditionFault::Usage);
        };
        words.push(word)?;
    }
    Ok(words)
}
