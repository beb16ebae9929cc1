// What a machine keeps.
ghost use Rattle.std.specs.Prelude.{◌≡◌, ◌<◌};
ghost use Rattle.arrayvec.specs.ArrayVec.{array_vec_len};
ghost use Rattle.machine.specs.States.{marked, appended};

use crate::mark::Mark;
use arrayvec::ArrayVec;
use tables::event::Event;
use tables::tables::Tables;
use tables::{EVENTS, LAST_CELL, PLACES, PROCESSORS};

/// How many cells there are.
pub(crate) const CELLS: usize = LAST_CELL as usize + 1;

/// The tables, a mark for each line, how many lines of each table are issued, each cell's last drained write, the read of the
/// half-done swap, and the codes of the order written.
#[derive(Drop)]
pub(crate) struct Inner {
    pub(crate) tables: Tables,
    pub(crate) marks: [Mark; PLACES],
    pub(crate) issued: [usize; PROCESSORS],
    pub(crate) last: [Option<Event>; CELLS],
    pub(crate) half: Option<Event>,
    pub(crate) order: ArrayVec<u32, EVENTS>,
}

impl Inner {
    // Changes the mark of one line.
    pub(crate) fn set_mark(&mut self, place: usize, mark: Mark)
        requires { place < 128 }
        ensures { self.new ≡ marked self.old place mark }
    {
        self.marks[place] = mark;
    }

    // Writes an event at the end of the order.
    pub(crate) fn append(&mut self, code: u32)
        requires { array_vec_len self.old.order < 256 }
        ensures { self.new ≡ appended self.old code }
    {
        self.order.push(code);
    }
}
