// The tables of all processors: making them, adding to them, and looking at their lines.
ghost use Rattle.std.specs.Prelude.{◌≡◌, length};

use crate::line::{Entry, Line, Operand};
use crate::table::Table;
use crate::{LINES, PROCESSORS};
use faults::Fault;
use std::alloc::{AllocError, Global};
use std::array;

/// The tables of all processors.
#[derive(Drop)]
pub struct Tables {
    rows: [Table; PROCESSORS],
    // Beside the type: a proof about tables as a value is not told the length of an array in them.
    ghost four: { length rows ≡ 4 },
}

impl Tables {
    ghost use Rattle.std.specs.Prelude.{◌≡◌, ◌+◌, ◌-◌, ◌<◌, ◌≤◌, ◌⊎◌, length, take, IfOk, IsSome, Some, None, MatchOption, MatchResult, slice_index_or, slice_set};
    ghost use Rattle.faults.specs.declared.Fault.TheVariants.{ProcessorUnknown};
    ghost use Rattle.tables.specs.Size.{unit, number};
    ghost use Rattle.tables.specs.Rows.{rows_of, empty};
    ghost use Rattle.tables.specs.Contents.{contents, blank, refused, with_added};
    ghost use Rattle.tables.specs.Places.{line_refused};
    ghost use Rattle.tables.specs.View.{line_at, reads_at, writes_at, cell_at, operand_at, copied_by, copy_at, written_number, number_at, is_read, is_write, is_event};

    // Empty tables with all their room.
    pub(crate) fn new(heap: Global) -> Result<Tables, AllocError>
        ensures { IfOk result (λ t. contents t ≡ blank) }
    {
        let rows = array::try_from_fn(|_| Table::new(heap))?;
        Ok(Tables { rows })
    }

    // Adds to the table of a processor, or refuses and leaves all as it was.
    pub(crate) fn add(&mut self, processor: u32, entry: Entry) -> Result<(), Fault>
        ensures { MatchResult result
            (λ _. (refused (contents self.old) processor entry ≡ None)
            × (contents self.new ≡ with_added (contents self.old) processor entry))
            (λ e. (refused (contents self.old) processor entry ≡ Some e) × (contents self.new ≡ contents self.old)) }
    {
        let table = Tables::table_of(processor)?;
        self.rows[table].add(entry)
    }

    // Takes all lines and barriers away; the room stays.
    pub(crate) fn clear(&mut self)
        ensures { contents self.new ≡ blank }
    {
        for table in &mut self.rows {
            table.clear();
        }
    }

    /// Takes away all lines of a table but the first ones; its barriers stay. Tables count from 0, and past the last nothing changes.
    pub fn shorten(&mut self, table: usize, count: usize)
        ensures { contents self.new ≡ slice_set (contents self.old) table (record { lines = take count (slice_index_or (contents self.old) table empty).lines; barriers = (slice_index_or (contents self.old) table empty).barriers }) }
    {
        // By index: a proof loses what is written through an array's get_mut.
        if table < PROCESSORS {
            self.rows[table].shorten(count);
        }
    }

    /// The table of a processor, counted from 0, or the fault that there is no such processor.
    pub fn table_of(processor: u32) -> Result<usize, Fault>
        ensures { MatchResult result
            (λ t. (processor ≡ t + 1) × (t < unit.tables))
            (λ e. (e ≡ ProcessorUnknown) × ((processor < 1) ⊎ (unit.tables < processor))) }
    {
        if processor < 1 || processor as usize > PROCESSORS {
            return Err(Fault::ProcessorUnknown);
        }
        Ok(processor as usize - 1)
    }

    /// A table, if there is one of this number; tables count from 0.
    pub fn table(&self, table: usize) -> Option<&Table>
        ensures { MatchOption result (unit.tables ≤ table) (λ t. (table < unit.tables) × (rows_of t.now ≡ slice_index_or (contents self.now) table empty)) }
    {
        self.rows.get(table)
    }

    // No options: where there is no table, 0 is the number of its lines and of its barriers.
    /// How many lines a table has, and 0 where there is none; tables count from 0.
    pub fn line_count(&self, table: usize) -> usize
        ensures { result ≡ length (slice_index_or (contents self.now) table empty).lines }
    {
        self.table(table).map_or(0, |table| table.line_count())
    }

    /// How many barriers a table has, those after its last line included, and 0 where there is none; tables count from 0.
    pub fn barrier_count(&self, table: usize) -> u8
        ensures { result ≡ (slice_index_or (contents self.now) table empty).barriers }
    {
        self.table(table).map_or(0, |table| table.barrier_count())
    }

    // Two numbers as the caller has them, each refused by its own fault.
    /// The place of a line by its processor and its number there, both counted from 1, or the fault that there is none.
    pub fn place_of(&self, processor: u32, line: u32) -> Result<usize, Fault>
        ensures refused { MatchResult result
            (λ _. line_refused (contents self.now) processor line ≡ None)
            (λ e. line_refused (contents self.now) processor line ≡ Some e) }
        ensures place { IfOk result (λ n. n ≡ number unit (processor - 1) (line - 1)) }
        ensures below { IfOk result (λ n. n < 128) }
        ensures found { IfOk result (λ n. IsSome (line_at unit (contents self.now) n)) }
    {
        let table = Tables::table_of(processor)?;
        let number = line as usize;
        if number < 1 || number > self.line_count(table) {
            return Err(Fault::LineUnknown(number));
        }
        Ok(table * LINES + number - 1)
    }

    /// The line at this place: 32 places for each processor.
    pub fn line_at(&self, place: usize) -> Option<Line>
        ensures { result ≡ line_at unit (contents self.now) place }
    {
        self.table(place / LINES)?.line(place % LINES)
    }

    // One call each, like the counts of lines and of barriers: a common function would be no shorter.
    /// Whether the line at this place reads.
    pub fn reads(&self, place: usize) -> bool
        ensures { result ≡ reads_at unit (contents self.now) place }
    {
        self.line_at(place)
            .is_some_and(|line| line.access.kind().reads())
    }

    /// Whether the line at this place writes.
    pub fn writes(&self, place: usize) -> bool
        ensures { result ≡ writes_at unit (contents self.now) place }
    {
        self.line_at(place)
            .is_some_and(|line| line.access.kind().writes())
    }

    // No option, since the axioms compare cells only of lines that read or write.
    /// The cell of the line at this place, and 0 where there is none.
    pub fn cell(&self, place: usize) -> u8
        ensures { result ≡ cell_at unit (contents self.now) place }
    {
        self.line_at(place).map_or(0, |line| line.cell)
    }

    /// What the line at this place writes, if there is one and it writes.
    pub fn operand(&self, place: usize) -> Option<Operand>
        ensures is { result ≡ operand_at unit (contents self.now) place }
        ensures copied { copy_at unit (contents self.now) place ≡ copied_by unit place result }
        ensures number { number_at unit (contents self.now) place ≡ written_number result }
    {
        self.line_at(place)?.access.operand()
    }

    /// Whether this is the code of a read event of the tables.
    pub fn is_read(&self, code: usize) -> bool
        ensures { result ≡ is_read unit (contents self.now) code }
    {
        code % 2 == 0 && self.reads(code / 2)
    }

    /// Whether this is the code of a write event of the tables.
    pub fn is_write(&self, code: usize) -> bool
        ensures { result ≡ is_write unit (contents self.now) code }
    {
        code % 2 == 1 && self.writes(code / 2)
    }

    /// Whether this is the code of an event of the tables.
    pub fn is_event(&self, code: usize) -> bool
        ensures { result ≡ is_event unit (contents self.now) code }
    {
        self.is_read(code) || self.is_write(code)
    }
}
