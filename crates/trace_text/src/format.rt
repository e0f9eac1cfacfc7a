/// How answers are printed.
#[derive(Clone, Copy, Debug, PartialEq, Eq)]
pub enum AnswerFormat {
    /// Lines of text.
    Lines,
    /// A JSON object in one line.
    Json,
}
