/// What is drawn of a workload.
#[derive(Debug, Drop)]
pub struct Picture {
    /// An SVG document, or an HTML file.
    pub bytes: Vec<u8>,
    /// Whether it shows a cut.
    pub found: bool,
}
