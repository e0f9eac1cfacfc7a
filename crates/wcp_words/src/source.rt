/// Where a program reads what it answers to.
#[derive(Clone, Copy, Debug, PartialEq, Eq)]
pub enum InputSource<'a> {
    /// Nowhere: the answer needs no input.
    Nowhere,
    /// Standard input.
    StandardInput,
    /// The file with this name.
    File(&'a str),
}

impl<'a> InputSource<'a> {
    /// What the word FILE of a call names: standard input where there is no such word, or where it is `-`.
    pub fn named_by(word: Option<&'a str>) -> InputSource<'a> {
        match word {
            Some(name) if name != "-" => InputSource::File(name),
            _ => InputSource::StandardInput,
        }
    }
}
