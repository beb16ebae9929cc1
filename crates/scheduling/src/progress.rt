// Writing the calls of a schedule, event by event. Calls are written as numbers: a schedule is a list of codes for its user.
ghost use Rattle.std.specs.Prelude.{◌≡◌, ℕ, ◌+◌, ◌-◌, ◌/◌, ◌<◌, ◌≤◌, [], ◌∷◌, length};
ghost use Rattle.numbers.specs.Put.{Put};
ghost use Rattle.tables.specs.Size.{unit};
ghost use Rattle.model.specs.Schedule.{fill, more, up_to};
ghost use Rattle.judging.specs.Standings.{Codes};
ghost use Rattle.scheduling.specs.Calls.{issued_by, codes_of, event_calls, calls_of};

use tables::{LINES, PROCESSORS};

// How far the writing has come: how many lines of each table are issued, and how many calls are written.
// The output stands beside it: a lent slice in a field would take one clause more in each method, that it stays the same slice.
#[derive(Drop)]
struct Progress {
    issued: [usize; PROCESSORS],
    count: usize,
}

// Table and row are plain numbers, bounded in the contract: they are computed from an event's code.
impl Progress {
    // Writes the code of one call behind those before it.
    fn put(&mut self, output: &mut [u32], code: u32)
        requires { self.old.count < length output.old }
        ensures written { Put (code ∷ []) output.old self.old.count self.new.count output.new }
        ensures issued { self.new.issued ≡ self.old.issued }
    {
        output[self.count] = code;
        self.count += 1;
    }

    // Issues the lines of a table that are not issued yet, up to this row.
    fn issue_up_to(&mut self, output: &mut [u32], table: usize, row: usize)
        requires { (table < 4) × ((row < 32) × (self.old.count + (row + 1 - issued_by self.old.issued table) ≤ length output.old)) }
        ensures written { Put (codes_of (fill (row + 1 - issued_by self.old.issued table) table)) output.old self.old.count self.new.count output.new }
        ensures issued { (q : ℕ) → issued_by self.new.issued q ≡ more (issued_by self.old.issued) table (row + 1 - issued_by self.old.issued table) q }
    {
        // What this loop counts is kept for the events that follow.
        while self.issued[table] <= row {
            self.put(output, table as u32);
            self.issued[table] += 1;
        }
    }

    // Makes the calls for one event: issues up to its line, and the line's drain if the event is a write.
    fn make_calls(&mut self, output: &mut [u32], event: usize)
        requires { (event < 256) × (self.old.count + length (event_calls (issued_by self.old.issued) event) ≤ length output.old) }
        ensures written { Put (codes_of (event_calls (issued_by self.old.issued) event)) output.old self.old.count self.new.count output.new }
        ensures issued { (q : ℕ) → issued_by self.new.issued q ≡ up_to unit (issued_by self.old.issued) (event / 2) q }
    {
        let place = event / 2;
        self.issue_up_to(output, place / LINES, place % LINES);
        if event % 2 == 1 {
            self.put(output, (PROCESSORS + place) as u32);
        }
    }
}

// Writes the calls for all events of an order, and gives their number.
pub(crate) fn write_calls(order: &[u32], output: &mut [u32]) -> usize
    requires { (Codes order.now) × (length (calls_of order.now) ≤ length output.old) }
    ensures { Put (codes_of (calls_of order.now)) output.old 0 result output.new }
{
    let mut progress = Progress {
        issued: [0; PROCESSORS],
        count: 0,
    };
    for &event in order {
        progress.make_calls(output, event as usize);
    }
    progress.count
}
