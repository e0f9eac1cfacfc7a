ghost use Rattle.std.specs.Prelude.{◌≡◌, ◌==◌, ◌<◌, [], ◌∷◌, length, position, MatchOption, IfSome};
ghost use Rattle.std.specs.List.{slice_split};
ghost use Rattle.wcp_script.specs.Lines.{lines_of, words_of};
ghost use Rattle.wcp_script.specs.Head.{first_word};
ghost use Rattle.wcp_script.specs.Views.{seen_line, words_behind, AreWords};

/// A line of a text, without its LF.
#[derive(Clone, Copy)]
pub(crate) struct Line<'a> {
    pub bytes: &'a [u8],
    /// Whether the LF follows. Only the last line may lack it.
    pub ended: bool,
}

/// The words of a line. No line of more than four has a form.
#[derive(Clone, Copy)]
pub(crate) enum Words<'a> {
    One(&'a [u8]),
    Two(&'a [u8], &'a [u8]),
    Three(&'a [u8], &'a [u8], &'a [u8]),
    Four(&'a [u8], &'a [u8], &'a [u8], &'a [u8]),
    More,
}

/// The first line of a text, and what follows it.
#[tactic(auto, using(crate::proofs::Splits::lines_after), unfolding(crate::specs::Lines::lines_of))]
pub(crate) fn next_line(text: &[u8]) -> Option<(Line<'_>, &[u8])>
    ensures line { MatchOption result
        (lines_of text.now ≡ [])
        (λ next. lines_of text.now ≡ seen_line next.0 ∷ lines_of next.1.now) }
    ensures shorter { IfSome result (λ next. length next.1.now < length text.now) }
{
    match split_once(text, b'\n') {
        Some((bytes, rest)) => Some((Line { bytes, ended: true }, rest)),
        None if text.is_empty() => None,
        None => Some((
            Line {
                bytes: text,
                ended: false,
            },
            &[],
        )),
    }
}

/// The words of a line, split at each space.
#[tactic(auto, using(crate::proofs::Splits::some_part), unfolding(crate::specs::Lines::words_of))]
pub(crate) fn words_of(line: &[u8]) -> Words<'_>
    ensures { AreWords (words_of line.now) result }
{
    let Some((first, rest)) = split_once(line, b' ') else {
        return Words::One(line);
    };
    let Some((second, rest)) = split_once(rest, b' ') else {
        return Words::Two(first, rest);
    };
    let Some((third, rest)) = split_once(rest, b' ') else {
        return Words::Three(first, second, rest);
    };
    match split_once(rest, b' ') {
        None => Words::Four(first, second, third, rest),
        Some(_) => Words::More,
    }
}

/// The first of some words with a space between each two, and those behind it, if there are some.
#[tactic(auto, unfolding(crate::specs::Lines::words_of))]
pub(crate) fn next_word(words: &[u8]) -> (&[u8], Option<&[u8]>)
    ensures words { words_of words.now ≡ result.0.now ∷ words_behind result.1 }
    ensures shorter { IfSome result.1 (λ others. length others.now < length words.now) }
{
    match split_once(words, b' ') {
        Some((word, others)) => (word, Some(others)),
        None => (words, None),
    }
}

/// The first word of a line.
#[tactic(auto, unfolding(crate::specs::Lines::words_of))]
pub(crate) fn first_word(line: &[u8]) -> &[u8]
    ensures { result.now ≡ first_word (words_of line.now) }
{
    match split_once(line, b' ') {
        Some((first, _)) => first,
        None => line,
    }
}

/// What stands before the first separator and what stands after it.
#[tactic(auto, using(crate::proofs::Splits::split_at_position, crate::proofs::Splits::split_nowhere))]
fn split_once(bytes: &[u8], separator: u8) -> Option<(&[u8], &[u8])>
    ensures parts { MatchOption result
        (slice_split (λ byte. byte == separator) bytes.now ≡ bytes.now ∷ [])
        (λ found. slice_split (λ byte. byte == separator) bytes.now
        ≡ found.0.now ∷ slice_split (λ byte. byte == separator) found.1.now) }
    ensures shorter { IfSome result (λ found. length found.1.now < length bytes.now) }
{
    let at = place(bytes, separator)?;
    Some((&bytes[..at], &bytes[at + 1..]))
}

fn place(bytes: &[u8], separator: u8) -> Option<usize>
    ensures first { result ≡ position (λ byte. byte == separator) bytes.now }
    ensures within { IfSome result (λ at. at < length bytes.now) }
{
    bytes.iter().position(|byte| *byte == separator)
}
