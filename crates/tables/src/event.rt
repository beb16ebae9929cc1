// Read and write events, and the codes that name them in an order.
ghost use Rattle.std.specs.Prelude.{◌≡◌, Some, codes as text};
ghost use Rattle.tables.specs.Size.{unit};
ghost use Rattle.tables.specs.Events.{bit_of, side_of, Coded, Decoded, side_text, event_text};

use crate::line_id::LineId;
use std::error::Error;
use std::fmt;

/// Which of a line's events.
#[derive(Clone, Copy, PartialEq, Eq, Debug)]
pub enum Side {
    Read,
    Write,
}

/// An event: its line, and the side.
#[derive(Clone, Copy, PartialEq, Eq, Debug)]
pub struct Event {
    pub at: LineId,
    pub side: Side,
}

/// There is no event with that code.
#[derive(Clone, Copy, PartialEq, Eq, Debug)]
pub struct NoEvent;

// By name and not by From: a code stands for an event, and its side is one part of that.
impl Side {
    fn bit(self) -> u32
        ensures { result ≡ bit_of self }
    {
        self as u32
    }

    fn of_code(code: u32) -> Side
        ensures { result ≡ side_of code }
    {
        if code % 2 == 0 {
            Side::Read
        } else {
            Side::Write
        }
    }
}

/// The event's code.
impl From<Event> for u32 {
    ghost from_gives = { Coded unit };

    fn from(event: Event) -> u32 {
        event.at.place() as u32 * 2 + event.side.bit()
    }
}

/// The event with this code, if there is one.
impl TryFrom<u32> for Event {
    type Error = NoEvent;

    ghost try_from_gives = { Decoded unit };

    fn try_from(code: u32) -> Result<Event, NoEvent> {
        let at = LineId::at(code as usize / 2).ok_or(NoEvent)?;
        Ok(Event {
            at,
            side: Side::of_code(code),
        })
    }
}

impl fmt::Display for NoEvent {
    ghost output = { λ _. Some (text "no event has this code") };

    fn fmt<W: fmt::Write>(&self, f: &mut fmt::Formatter<W>) -> fmt::Result {
        f.write_str("no event has this code")
    }
}

impl Error for NoEvent {}

/// A letter for the side: `r` or `w`.
impl fmt::Display for Side {
    ghost output = { λ s. Some (side_text s) };

    fn fmt<W: fmt::Write>(&self, f: &mut fmt::Formatter<W>) -> fmt::Result {
        f.write_str(match self {
            Side::Read => "r",
            Side::Write => "w",
        })
    }
}

/// Processor, line and side, as `2.1r`.
impl fmt::Display for Event {
    ghost output = { λ e. Some (event_text e) };

    fn fmt<W: fmt::Write>(&self, f: &mut fmt::Formatter<W>) -> fmt::Result {
        write!(f, "{}{}", self.at, self.side)
    }
}
