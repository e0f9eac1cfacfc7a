/// The word at a place, or an empty one.
pub fn word_at(words: &[String], place: usize) -> &str {
    match words.get(place) {
        Some(word) => word.as_str(),
        None => "",
    }
}

/// The number that the word at a place is, or 0.
pub fn number_at(words: &[String], place: usize) -> u32 {
    word_at(words, place).parse().unwrap_or(0)
}
