// The table of one processor: making it, and adding to it.
ghost use Rattle.std.specs.Prelude.{ℕ, ◌≤◌, length, vec_capacity};
ghost use Rattle.tables.specs.Lines.{CellsFit, CopiesFit, BarriersWithin, BarriersRise};

use crate::line::{Access, Entry, Line, Operand};
use crate::{BARRIERS, LAST_CELL, LINES};
use faults::Fault;
use std::alloc::{AllocError, Global};

mod looks;

/// The lines of one processor, and its barriers, those after the last line included.
#[derive(Drop)]
pub struct Table {
    lines: Vec<Line>,
    barriers: u8,
    ghost room: { 32 ≤ vec_capacity lines },
    ghost few: { length lines.items ≤ 32 },
    ghost bounded: { barriers ≤ 31 },
    ghost cells: { CellsFit lines.items },
    ghost copies: { CopiesFit lines.items },
    ghost within: { BarriersWithin lines.items barriers },
    ghost rising: { BarriersRise lines.items },
}

impl Table {
    ghost use Rattle.std.specs.Prelude.{◌≡◌, take, IfOk, Some, None, MatchResult};
    ghost use Rattle.tables.specs.declared.line.Entry.TheVariants.{Operation, Barrier};
    ghost use Rattle.tables.specs.Lines.{names};
    ghost use Rattle.tables.specs.Rows.{rows_of, empty, refusal, added};

    // An empty table with room for all its lines, so that adding never wants for memory.
    pub(crate) fn new(heap: Global) -> Result<Table, AllocError>
        ensures { IfOk result (λ t. rows_of t ≡ empty) }
    {
        let lines = Vec::with_capacity(heap, LINES)?;
        Ok(Table { lines, barriers: 0 })
    }

    // Whether what the access copies, if anything, was read by an earlier line.
    fn names(&self, access: Access) -> bool
        ensures { result ≡ names self.now.lines.items access }
    {
        match access.operand() {
            Some(Operand::Copied(line)) => self.reads_line(line as usize),
            _ => true,
        }
    }

    fn add_line(&mut self, access: Access, cell: u8) -> Result<(), Fault>
        ensures { MatchResult result
            (λ _. (refusal (rows_of self.old) (Operation access cell) ≡ None)
            × (rows_of self.new ≡ added (rows_of self.old) (Operation access cell)))
            (λ e. (refusal (rows_of self.old) (Operation access cell) ≡ Some e) × (self.new ≡ self.old)) }
    {
        let count = self.line_count();
        let number = count + 1;
        if count >= LINES {
            return Err(Fault::TableFull(number));
        }
        if cell > LAST_CELL {
            return Err(Fault::CellBeyond(number));
        }
        if !self.names(access) {
            return Err(Fault::CopyAmiss(number));
        }
        self.lines.push_reserved(Line {
            access,
            cell,
            barrier: self.barriers,
        });
        Ok(())
    }

    fn add_barrier(&mut self) -> Result<(), Fault>
        ensures { MatchResult result
            (λ _. (refusal (rows_of self.old) Barrier ≡ None) × (rows_of self.new ≡ added (rows_of self.old) Barrier))
            (λ e. (refusal (rows_of self.old) Barrier ≡ Some e) × (self.new ≡ self.old)) }
    {
        if self.barriers >= BARRIERS {
            return Err(Fault::TableFull(self.barriers as usize + 1));
        }
        self.barriers += 1;
        Ok(())
    }

    // Adds a line or a barrier, or refuses and leaves the table as it was.
    pub(crate) fn add(&mut self, entry: Entry) -> Result<(), Fault>
        ensures { MatchResult result
            (λ _. (refusal (rows_of self.old) entry ≡ None) × (rows_of self.new ≡ added (rows_of self.old) entry))
            (λ e. (refusal (rows_of self.old) entry ≡ Some e) × (self.new ≡ self.old)) }
    {
        match entry {
            Entry::Operation(access, cell) => self.add_line(access, cell),
            Entry::Barrier => self.add_barrier(),
        }
    }

    // Takes all lines and barriers away; the room stays.
    pub(crate) fn clear(&mut self)
        ensures { rows_of self.new ≡ empty }
    {
        self.lines.clear();
        self.barriers = 0;
    }

    // Takes away all lines but the first ones; the barriers and the room stay.
    pub(crate) fn shorten(&mut self, count: usize)
        ensures { rows_of self.new ≡ record { lines = take count (rows_of self.old).lines; barriers = (rows_of self.old).barriers } }
    {
        self.lines.truncate(count);
    }
}
