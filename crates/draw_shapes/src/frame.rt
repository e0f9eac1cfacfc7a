//! Which columns and rows are drawn, and where.
ghost use Rattle.std.specs.Prelude.{◌≡◌, ◌+◌, ◌<◌, ◌≤◌, ◌^◌};

use crate::name::MOST_WIDTH;

/// The most columns of a picture.
pub const MOST_COLUMNS: u32 = 1000;

/// The farthest column in which anything is drawn.
const FARTHEST: u32 = 1_000_000_000;

/// The most rows of a picture.
pub const MOST_ROWS: u32 = 100;

/// The columns that are drawn, and where they and the rows stand.
#[derive(Debug, Drop)]
pub struct Frame {
    /// How many rows there are.
    n: u32,
    /// The column left of the first one that is drawn.
    base: u32,
    /// How many columns are drawn.
    columns: u32,
    /// How far right the left edge is, in pixels. The right edge is as far from the end of the picture.
    left: u32,
    /// How high a row is, in pixels.
    row: u32,
    ghost few: { (n ≤ 100) × (columns ≤ 1000) × (base + 1001 < 2 ^ 32) × (16 ≤ left) × (left ≤ 400) × (row ≤ 46) },
}

impl Frame {
    /// A frame of `n` rows whose widest name has so many letters, about a line in this column, or from the first column
    /// where there is no line. The last column that anything stands in is this one. At most so many columns are drawn,
    /// half of them left of the line.
    pub fn about(
        n: u32,
        widest: u32,
        most_columns: u32,
        last_column: u32,
        line: Option<u32>,
    ) -> Frame
        requires few { n ≤ 100 }
        ensures { result.n ≡ n }
    {
        let most = most_columns.min(MOST_COLUMNS);
        let last_column = last_column.min(FARTHEST);
        let line = line.unwrap_or(0).min(last_column);
        let base = line.saturating_sub(most / 2 + 1);
        Frame {
            n,
            base,
            columns: last_column.saturating_sub(base).min(most),
            left: 24 + 8 * widest.min(MOST_WIDTH),
            row: if n > 8 { 34 } else { 46 },
        }
    }

    /// How many rows there are.
    pub fn rows(&self) -> u32
        ensures { result ≡ self.now.n }
    {
        self.n
    }

    /// How far right a column is drawn, in pixels: what is beyond an edge is at the edge.
    pub(crate) fn across(&self, column: u32) -> u32
        ensures few { result ≤ 50000 }
    {
        self.left + 44 * column.saturating_sub(self.base).min(self.columns + 1)
    }

    /// How far down a row is drawn, in pixels. What is below the last one stands where one row more would be.
    pub(crate) fn down(&self, row: u32) -> u32
        ensures few { result ≤ 5000 }
        ensures least { 54 ≤ result }
    {
        54 + self.row * row.min(self.n)
    }

    /// How far down the notes below the rows begin, in pixels.
    pub(crate) fn bottom(&self) -> u32
        ensures few { result ≤ 5000 }
        ensures least { 54 ≤ result }
    {
        self.down(self.n)
    }

    /// How far right the left edge is, in pixels.
    pub(crate) fn left(&self) -> u32
        ensures least { 16 ≤ result }
        ensures few { result ≤ 400 }
    {
        self.left
    }

    /// How far right the right edge is, in pixels.
    pub(crate) fn right(&self) -> u32
        ensures few { result ≤ 50000 }
    {
        self.across(self.base + self.columns + 1)
    }

    /// How wide the picture is, in pixels.
    pub(crate) fn width(&self) -> u32
        ensures few { result ≤ 51000 }
    {
        self.right() + self.left
    }

    /// Whether a column is one of those that are drawn.
    pub fn shows(&self, column: u32) -> bool {
        self.base < column && column < self.base + self.columns + 1
    }

    /// How many of these columns of events stand left of those that are drawn, and how many right of them. Nothing
    /// stands in column 0.
    pub fn left_out(&self, columns: &[u32]) -> (usize, usize) {
        let last = self.base + self.columns;
        let left = columns
            .iter()
            .filter(|column| 0 < **column && **column <= self.base)
            .count();
        let right = columns.iter().filter(|column| last < **column).count();
        (left, right)
    }
}
