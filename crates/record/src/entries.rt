// A table's entry in a section: its code, and the numbers that follow it.
ghost use Rattle.std.specs.Prelude.{◌≡◌, MatchResult};
ghost use Rattle.tables.specs.declared.line.Entry.TheVariants.{Operation};
ghost use Rattle.tables.specs.Rows.{rows_of};
ghost use Rattle.record.specs.Form.{Takes, tested};
ghost use Rattle.record.specs.Entries.{code_of, Decodes, source_of, operand_number, entry_numbers, numbers_of};
ghost use Rattle.record.specs.Table.{role_of, full, code_test, cell_test, copied_test, test, entry_form};

use crate::sections::Part;
use faults::Fault;
use tables::line::{Access, Entry, Operand};
use tables::table::Table;
use tables::{BARRIERS, LAST_CELL, LINES};

/// The kinds of entry, as their codes tell them apart.
#[derive(Clone, Copy)]
pub enum EntryCode {
    Load,
    Store(Source),
    Swap(Source),
    Barrier,
}

/// Where the word that a line writes comes from: the number that the entry has, or the line that it names.
#[derive(Clone, Copy)]
pub enum Source {
    Number,
    Copy,
}

/// What an entry says: what it adds to its table, and the number that a line which reads claims to have read.
#[derive(Clone, Copy)]
pub struct Item {
    pub entry: Entry,
    pub claim: Option<u32>,
}

/// A number that is the code of no kind of entry.
#[derive(Clone, Copy)]
pub struct UnknownCode;

impl TryFrom<u32> for EntryCode {
    type Error = UnknownCode;

    ghost try_from_gives = { Decodes };

    fn try_from(number: u32) -> Result<Self, UnknownCode> {
        match number {
            0 => Ok(EntryCode::Load),
            1 => Ok(EntryCode::Store(Source::Number)),
            2 => Ok(EntryCode::Store(Source::Copy)),
            3 => Ok(EntryCode::Swap(Source::Number)),
            4 => Ok(EntryCode::Swap(Source::Copy)),
            5 => Ok(EntryCode::Barrier),
            _ => Err(UnknownCode),
        }
    }
}

impl EntryCode {
    // Whether the table has no room for another entry of this kind.
    fn is_full(self, table: &Table) -> bool
        ensures { result ≡ full (rows_of table.now) (code_of self) }
    {
        match self {
            EntryCode::Load | EntryCode::Store(_) | EntryCode::Swap(_) => {
                table.line_count() >= LINES
            }
            EntryCode::Barrier => table.barrier_count() >= BARRIERS,
        }
    }
}

impl Part<'_> {
    // An entry's code, for which the table has room.
    fn code(self, at: &mut usize, table: &Table) -> Result<EntryCode, Fault>
        ensures { MatchResult result
            (λ k. (tested self.entry.bytes.now self.entry.start (code_test (rows_of table.now))).is at.old (code_of k) at.new)
            (λ e. (tested self.entry.bytes.now self.entry.start (code_test (rows_of table.now))).amiss at.old e) }
    {
        let place = self.place(*at);
        let number = self.number(at)?;
        let Ok(code) = EntryCode::try_from(number) else {
            return Err(Fault::EntryUnknown(place));
        };
        if code.is_full(table) {
            return Err(Fault::TableFull(place));
        }
        Ok(code)
    }

    // A line's cell.
    fn cell(self, at: &mut usize) -> Result<u8, Fault>
        ensures { Takes (tested self.entry.bytes.now self.entry.start cell_test) at.old at.new result }
    {
        let place = self.place(*at);
        let cell = self.number(at)?;
        if cell > u32::from(LAST_CELL) {
            return Err(Fault::CellBeyond(place));
        }
        Ok(cell as u8)
    }

    // The number of an earlier line that reads.
    fn copied(self, at: &mut usize, table: &Table) -> Result<u8, Fault>
        ensures { Takes (tested self.entry.bytes.now self.entry.start (copied_test (rows_of table.now))) at.old at.new result }
    {
        let place = self.place(*at);
        let line = self.number(at)?;
        if !table.reads_line(line as usize) {
            return Err(Fault::CopyAmiss(place));
        }
        Ok(line as u8)
    }

    // What a line writes.
    fn operand(self, at: &mut usize, source: Source, table: &Table) -> Result<Operand, Fault>
        ensures { MatchResult result
            (λ o. (source_of o ≡ source)
            × (tested self.entry.bytes.now self.entry.start (test (rows_of table.now) (role_of source))).is at.old (operand_number o) at.new)
            (λ e. (tested self.entry.bytes.now self.entry.start (test (rows_of table.now) (role_of source))).amiss at.old e) }
    {
        match source {
            Source::Number => Ok(Operand::Written(self.number(at)?)),
            Source::Copy => Ok(Operand::Copied(self.copied(at, table)?)),
        }
    }

    /// The entry at `at`, after those that the table has. `at` moves to the place after it.
    pub(crate) fn item(self, at: &mut usize, table: &Table) -> Result<Item, Fault>
        ensures { Takes (entry_form self.entry.bytes.now self.entry.start (rows_of table.now)) at.old at.new result }
    {
        match self.code(at, table)? {
            EntryCode::Load => {
                let cell = self.cell(at)?;
                let claim = self.number(at)?;
                Ok(line(Access::Load, cell, Some(claim)))
            }
            EntryCode::Store(source) => {
                let cell = self.cell(at)?;
                let operand = self.operand(at, source, table)?;
                Ok(line(Access::Store(operand), cell, None))
            }
            EntryCode::Swap(source) => {
                let cell = self.cell(at)?;
                let operand = self.operand(at, source, table)?;
                let claim = self.number(at)?;
                Ok(line(Access::Swap(operand), cell, Some(claim)))
            }
            EntryCode::Barrier => Ok(Item {
                entry: Entry::Barrier,
                claim: None,
            }),
        }
    }
}

// A line with this access to that cell.
fn line(access: Access, cell: u8, claim: Option<u32>) -> Item
    ensures { numbers_of result ≡ entry_numbers (Operation access cell) claim }
{
    Item {
        entry: Entry::Operation(access, cell),
        claim,
    }
}
