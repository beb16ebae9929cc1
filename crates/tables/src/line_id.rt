// A line by its processor and its number there.
ghost use Rattle.std.specs.Prelude.{◌≡◌, ◌^◌, ◌<◌, ◌≤◌, Some, MatchOption};
ghost use Rattle.tables.specs.Size.{unit};
ghost use Rattle.tables.specs.LineIds.{line_id, place_of, line_id_text};

use crate::{LINES, PLACES};
use std::fmt;

/// A line of the unit, by its processor and its number there, both counted from 1.
#[derive(Clone, Copy, PartialEq, Eq, Debug)]
pub struct LineId {
    pub processor: u8,
    pub line: u8,
}

impl LineId {
    /// The line at a place, if there is such a place.
    pub fn at(place: usize) -> Option<LineId>
        ensures { MatchOption result (128 ≤ place) (λ l. (place < 128) × (l ≡ line_id unit place)) }
    {
        if place >= PLACES {
            return None;
        }
        Some(LineId {
            processor: (place / LINES + 1) as u8,
            line: (place % LINES + 1) as u8,
        })
    }

    /// Its place.
    pub fn place(self) -> usize
        ensures value { result ≡ place_of unit self }
        ensures small { result < 2 ^ 16 }
    {
        let table = usize::from(self.processor.saturating_sub(1));
        let row = usize::from(self.line.saturating_sub(1));
        table * LINES + row
    }
}

/// Processor and line, as `2.1`.
impl fmt::Display for LineId {
    ghost output = { λ l. Some (line_id_text l) };

    fn fmt<W: fmt::Write>(&self, f: &mut fmt::Formatter<W>) -> fmt::Result {
        write!(f, "{}.{}", self.processor, self.line)
    }
}
