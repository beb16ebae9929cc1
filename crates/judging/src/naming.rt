// Breaches from codes of events.
ghost use Rattle.std.specs.Prelude.{◌≡◌, ◌<◌};
ghost use Rattle.tables.specs.Size.{unit};
ghost use Rattle.tables.specs.Events.{code_of, OfUnit};
ghost use Rattle.model.specs.Verdicts.{write_of};
ghost use Rattle.judging.specs.Namings.{WithinCodes, NamedIf, Tells};
ghost use Rattle.judging.specs.Sources.{Within};

use model::verdict::{Axiom, Breach};
use tables::event::Event;

// The event of a code.
fn event_of(code: usize) -> Event
    requires { code < 256 }
    ensures inside { OfUnit unit result }
    ensures coded { code_of unit result ≡ code }
{
    // A match, since for `unwrap` the proof did not close.
    match Event::try_from(code as u32) {
        Ok(event) => event,
        Err(_) => unreachable(),
    }
}

// The event of a code, if there is one.
pub(crate) fn event_if(code: Option<usize>) -> Option<Event>
    requires { WithinCodes code }
    ensures { NamedIf unit code result }
{
    code.map(event_of)
}

// The code of the line's write, if there is a line.
pub(crate) fn write_of(line: Option<usize>) -> Option<usize>
    requires { Within line }
    ensures value { result ≡ write_of line }
    ensures inside { WithinCodes result }
{
    line.map(|m| 2 * m + 1)
}

// The breach of the axiom by these events.
pub(crate) fn broken(axiom: Axiom, first: usize, second: Option<usize>) -> Breach
    requires { (first < 256) × (WithinCodes second) }
    ensures { Tells unit «axiom» first second result }
{
    Breach {
        axiom,
        first: event_of(first),
        second: event_if(second),
    }
}
