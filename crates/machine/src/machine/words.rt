// The words that reads get.
ghost use Rattle.std.specs.Prelude.{◌≡◌, ◌<◌, false, map, Some};
ghost use Rattle.tables.specs.Size.{unit};
ghost use Rattle.tables.specs.View.{line_at};
ghost use Rattle.rules.specs.Sheets.{IsSameLoan};
ghost use Rattle.model.specs.Program.{stored_at, words_of};
ghost use Rattle.model.specs.Machine.{issue_sheet};
ghost use Rattle.machine.specs.Machines.{state_of, lines_of, program_of};

use super::Machine;
use model::stored::source_word;
use rules::sheet::Sheet;
use rules::words::WordKind;
use tables::line::Line;

impl Machine {
    // A line that reads puts its word on the sheet.
    pub(super) fn put_word<K: WordKind>(
        &self,
        kind: &K,
        sheet: &mut Sheet<K::Word>,
        n: usize,
        line: Line,
    )
        requires within { n < 128 }
        requires own { Some line ≡ line_at unit (lines_of self.now) n }
        ensures after { map K.WordKind.meaning sheet.new.places.now ≡ issue_sheet (program_of (λ _ _. false) self.now) (stored_at (words_of K.WordKind) unit (lines_of self.now)) K.WordKind.starts (state_of self.now) (map K.WordKind.meaning sheet.old.places.now) n }
        ensures named { IsSameLoan sheet.old sheet.new }
    {
        if line.access.kind().reads() {
            let from = self.source_of(n, line.cell);
            let word = source_word(&self.inner.tables, kind, sheet, line.cell, from);
            sheet.put(n, word);
        }
    }
}
