// Finishing a machine.
ghost use Rattle.std.specs.Prelude.{◌≡◌, slice_index};
ghost use Rattle.tables.specs.Size.{unit};
ghost use Rattle.tables.specs.Contents.{contents};
ghost use Rattle.tables.specs.View.{cell_at};
ghost use Rattle.model.specs.Machine.{drain_half, sweep, finish, cut};
ghost use Rattle.machine.specs.Machines.{state_of, lines_of};
ghost use Rattle.machine.specs.Endings.{order_of};

use super::Machine;
use crate::ended::Ended;
use crate::inner::Inner;
use tables::tables::Tables;
use tables::{PLACES, PROCESSORS};

// The first lines of each table, so many as its number says.
fn cut_tables(mut tables: Tables, issued: [usize; PROCESSORS]) -> Tables
    ensures { contents result ≡ cut (λ q. slice_index issued q) (contents tables) }
{
    for (table, count) in issued.iter().enumerate() {
        tables.shorten(table, *count);
    }
    tables
}

impl Machine {
    // Drains the write of the half-done swap, if there is one.
    fn drain_half(&mut self)
        ensures state { state_of self.new ≡ drain_half (cell_at unit (lines_of self.old)) (state_of self.old) (state_of self.old).half }
        ensures tables { lines_of self.new ≡ lines_of self.old }
    {
        if let Some(swap) = self.inner.half {
            self.put_drain(swap.at.place());
        }
    }

    // Drains all held writes, table by table in program order.
    fn drain_rest(&mut self)
        ensures state { state_of self.new ≡ sweep (cell_at unit (lines_of self.old)) (state_of self.old) 128 }
        ensures tables { lines_of self.new ≡ lines_of self.old }
    {
        // A loop, since each drain changes the machine that the next place is asked of.
        for n in 0..PLACES {
            if self.holds(n) {
                self.put_drain(n);
            }
        }
    }

    /// Finishes the machine, which is used up: drains the write of the half-done swap, then table by table the other held
    /// writes in program order, and gives the order with the issued lines.
    pub fn finish(mut self) -> Ended
        ensures order { order_of result ≡ (finish unit (cell_at unit (lines_of self)) (state_of self)).order }
        ensures lines { contents result.tables ≡ cut (state_of self).issued (lines_of self) }
    {
        self.drain_half();
        self.drain_rest();
        let Machine { inner } = self;
        let Inner {
            tables,
            issued,
            order,
            ..
        } = inner;
        let tables = cut_tables(tables, issued);
        Ended { order, tables }
    }
}
