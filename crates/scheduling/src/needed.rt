// How many calls complete a machine.
ghost use Rattle.std.specs.Prelude.{◌≡◌, ◌≤◌};
ghost use Rattle.tables.specs.Contents.{contents};
ghost use Rattle.tables.specs.Size.{unit};
ghost use Rattle.tables.specs.View.{reads_at, writes_at};
ghost use Rattle.rules.specs.Waits.{Waits};
ghost use Rattle.model.specs.Program.{program};
ghost use Rattle.scheduling.specs.Calls.{calls_at, needed};

use tables::PLACES;
use tables::tables::Tables;

// How many calls the line at this place takes.
fn calls_at(tables: &Tables, place: usize) -> usize
    ensures value { result ≡ calls_at (reads_at unit (contents tables.now) place) (writes_at unit (contents tables.now) place) }
    ensures few { result ≤ 2 }
{
    if tables.writes(place) {
        return 2;
    }
    if tables.reads(place) {
        return 1;
    }
    0
}

// How many calls the lines of all tables take.
pub(crate) fn calls_needed(tables: &Tables) -> usize
    ensures { (w : Waits) → result ≡ needed (program unit w (contents tables.now)) }
{
    // A loop: that the total of a chain fits was not proved.
    let mut calls = 0;
    for place in 0..PLACES {
        calls += calls_at(tables, place);
    }
    calls
}
