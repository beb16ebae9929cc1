// Closing a draft.
ghost use Rattle.std.specs.Prelude.{◌≡◌};
ghost use Rattle.tables.specs.Contents.{contents};
ghost use Rattle.model.specs.Machine.{fresh};
ghost use Rattle.machine.specs.Machines.{state_of, lines_of};

use super::Machine;
use crate::inner::{CELLS, Inner};
use crate::mark::Mark;
use arrayvec::ArrayVec;
use tables::draft::Draft;
use tables::{PLACES, PROCESSORS};

impl Machine {
    /// Closes a draft, which is used up: a machine with its tables, on which nothing has run.
    pub fn close(draft: Draft) -> Machine
        ensures state { state_of result ≡ fresh }
        ensures tables { lines_of result ≡ contents draft.tables }
    {
        let inner = Inner {
            tables: draft.into_tables(),
            marks: [Mark::Waiting; PLACES],
            issued: [0; PROCESSORS],
            last: [None; CELLS],
            half: None,
            order: ArrayVec::new(),
        };
        Machine { inner }
    }
}
