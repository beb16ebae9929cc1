// The tables of a record.
ghost use Rattle.std.specs.Prelude.{◌≡◌, ℕ, ◌+◌, ◌<◌, ◌≤◌, List, [], Some, None, MatchResult, slice_index_or};
ghost use Rattle.tables.specs.Rows.{empty};
ghost use Rattle.tables.specs.Contents.{contents, refused, with_added};
ghost use Rattle.record.specs.declared.entries.Item.{Item};
ghost use Rattle.record.specs.Table.{table_form, tables_form};
ghost use Rattle.record.specs.Kept.{Kept, noted, Tabled};

use crate::entries::Item;
use crate::sections::{Part, section};
use faults::Fault;
use tables::draft::Draft;
use tables::line::Entry;
use tables::{LINES, PLACES, PROCESSORS};

/// The tables of a record, as far as they are read, and for each place the claim of its line.
#[derive(Drop)]
pub(crate) struct Reading {
    pub draft: Draft,
    pub claims: [Option<u32>; PLACES],
}

// A table is a plain number, bounded in each contract: it comes from the loop over all of them.
impl Reading {
    // Nothing is read yet.
    pub(crate) fn new(draft: Draft) -> Reading
        ensures { Kept [] (contents result.draft.tables) result.claims }
    {
        Reading {
            draft: draft.emptied(),
            claims: [None; PLACES],
        }
    }

    // Adds an entry to its table, and notes its claim at the place of its line.
    fn enter(&mut self, table: usize, item: Item) -> Result<(), Fault>
        requires { table < 4 }
        ensures { MatchResult result
            (λ _. (refused (contents self.old.draft.tables) (table + 1) item.entry ≡ None)
            × (contents self.new.draft.tables ≡ with_added (contents self.old.draft.tables) (table + 1) item.entry)
            × (self.new.claims ≡ noted table (slice_index_or (contents self.old.draft.tables) table empty) item self.old.claims))
            (λ e. refused (contents self.old.draft.tables) (table + 1) item.entry ≡ Some e) }
    {
        let place = table * LINES + self.draft.tables().line_count(table);
        self.draft.add(table as u32 + 1, item.entry)?;
        match item.entry {
            Entry::Operation(_, _) => self.claims[place] = item.claim,
            Entry::Barrier => {}
        }
        Ok(())
    }

    // Reads the entries of a table's section.
    fn read_table(&mut self, table: usize, part: Part) -> Result<(), Fault>
        requires { (table < 4) × (slice_index_or (contents self.old.draft.tables) table empty ≡ empty) }
        ensures { MatchResult result
            (λ _. Tabled part.entry.bytes.now part.entry.start table
            (contents self.old.draft.tables) (contents self.new.draft.tables) self.old.claims self.new.claims)
            (λ e. (table_form part.entry.bytes.now part.entry.start).amiss 0 e) }
    {
        let mut at = 0;
        // `at` goes on by what is read.
        while at < part.bytes.len() {
            let rows = self.draft.tables().table(table).unwrap();
            let item = part.item(&mut at, rows)?;
            self.enter(table, item)?;
        }
        Ok(())
    }
}

// Bytes and a place in them come as they are where the whole record is meant; within a section they are a `Part`.

// Reads the sections of all tables from `at` on, and gives the place after them.
pub(crate) fn read_tables(reading: &mut Reading, bytes: &[u8], at: usize) -> Result<usize, Fault>
    requires { Kept [] (contents reading.old.draft.tables) reading.old.claims }
    ensures { MatchResult result
        (λ next. (ts : List (List Item)) × (tables_form bytes.now).is at ts next × Kept ts (contents reading.new.draft.tables) reading.new.claims)
        (λ e. (tables_form bytes.now).amiss at e) }
{
    let mut next = at;
    // A loop, since each section begins where the one before it ended.
    for table in 0..PROCESSORS {
        let (part, after) = section(bytes, next)?;
        reading.read_table(table, part)?;
        next = after;
    }
    Ok(next)
}
