// Looking at the lines of a table.
ghost use Rattle.std.specs.Prelude.{◌≡◌, length};
ghost use Rattle.tables.specs.Lines.{reading, nth};
ghost use Rattle.tables.specs.Rows.{rows_of};

use super::Table;
use crate::line::Line;

impl Table {
    /// How many lines there are.
    pub fn line_count(&self) -> usize
        ensures { result ≡ length (rows_of self.now).lines }
    {
        self.lines.len()
    }

    /// How many barriers there are, those after the last line included.
    pub fn barrier_count(&self) -> u8
        ensures { result ≡ (rows_of self.now).barriers }
    {
        self.barriers
    }

    /// The line in this row, counted from 0, if there is one.
    pub fn line(&self, row: usize) -> Option<Line>
        ensures { result ≡ nth (rows_of self.now).lines row }
    {
        self.lines.get(row).copied()
    }

    /// Whether there is a line of this number, counted from 1, and it reads.
    pub fn reads_line(&self, number: usize) -> bool
        ensures { result ≡ reading (rows_of self.now).lines number }
    {
        number > 0
            && self
                .line(number - 1)
                .is_some_and(|line| line.access.kind().reads())
    }
}
