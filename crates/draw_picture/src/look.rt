/// What a picture shows beside the layout.
#[derive(Clone, Copy, Debug)]
pub struct Look<'a> {
    /// The most columns that are drawn. More than 1,000 are never drawn.
    pub most_columns: u32,
    /// For each task of the order the line of the text that says it, counted from 1, as a tooltip shows it. Where the
    /// list is shorter, the tooltips of the rest show no line.
    pub lines: &'a [u64],
}
