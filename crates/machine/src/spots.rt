// Events by the places of their lines.
ghost use Rattle.std.specs.Prelude.{◌≡◌, ◌+◌, ◌*◌, ◌<◌};
ghost use Rattle.tables.specs.Size.{unit};
ghost use Rattle.tables.specs.Events.{bit_of, code_of};
ghost use Rattle.machine.specs.States.{place_of};

use tables::event::{Event, Side};
use tables::line_id::LineId;

// The event on this side of the line at a place.
// A place is a plain number, bounded in each contract: it is computed, and a type of its own would be taken apart at each step.
pub(crate) fn event_of(place: usize, side: Side) -> Event
    requires { place < 128 }
    ensures spot { place_of result ≡ place }
    ensures coded { code_of unit result ≡ 2 * place + bit_of side }
    ensures sided { bit_of result.side ≡ bit_of side }
{
    Event {
        at: LineId::at(place).unwrap(),
        side,
    }
}
