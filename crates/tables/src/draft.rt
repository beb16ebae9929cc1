// Tables that are being entered.
ghost use Rattle.std.specs.Prelude.{◌≡◌, IfOk, Some, None, MatchResult};
ghost use Rattle.tables.specs.Contents.{contents, blank, refused, with_added};
ghost use Rattle.tables.specs.Size.{unit};
ghost use Rattle.tables.specs.View.{Good};

use crate::line::Entry;
use crate::tables::Tables;
use faults::Fault;
use std::alloc::{AllocError, Global};

/// Tables that are being entered. It is used up when it is closed.
#[derive(Drop)]
pub struct Draft {
    tables: Tables,
}

impl Draft {
    /// Empty tables. All room is reserved here, so that nothing later wants for memory.
    pub fn new(heap: Global) -> Result<Draft, AllocError>
        ensures { IfOk result (λ d. contents d.tables ≡ blank) }
    {
        let tables = Tables::new(heap)?;
        Ok(Draft { tables })
    }

    /// Adds a line or a barrier to the table of a processor, or refuses and leaves all as it was.
    pub fn add(&mut self, processor: u32, entry: Entry) -> Result<(), Fault>
        ensures { MatchResult result
            (λ _. (refused (contents self.old.tables) processor entry ≡ None)
            × (contents self.new.tables ≡ with_added (contents self.old.tables) processor entry))
            (λ e. (refused (contents self.old.tables) processor entry ≡ Some e) × (contents self.new.tables ≡ contents self.old.tables)) }
    {
        self.tables.add(processor, entry)
    }

    /// The draft with empty tables, and with the room that it had.
    pub fn emptied(mut self) -> Draft
        ensures { contents result.tables ≡ blank }
    {
        self.tables.clear();
        self
    }

    /// The tables as they stand.
    pub fn tables(&self) -> &Tables
        ensures same { result.now ≡ self.now.tables }
        ensures good { Good unit (contents result.now) }
    {
        &self.tables
    }

    /// The tables, to which nothing more is added.
    pub fn into_tables(self) -> Tables
        ensures same { result ≡ self.tables }
        ensures good { Good unit (contents result) }
    {
        let Draft { tables } = self;
        tables
    }
}
