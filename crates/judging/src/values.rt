// The words of reads, and the lowest read with a wrong one: Value.
ghost use Rattle.std.specs.Prelude.{◌≡◌, ◌<◌, IfSome};
ghost use Rattle.tables.specs.Contents.{contents};
ghost use Rattle.tables.specs.Size.{unit};
ghost use Rattle.rules.specs.Waits.{Waits};
ghost use Rattle.judging.specs.Case.{case};
ghost use Rattle.judging.specs.Sources.{Within};
ghost use Rattle.judging.specs.Values.{Checked, AllChecked};

use crate::complete::Complete;
use model::stored::{source_word, word_at};
use rules::sheet::Sheet;
use rules::words::WordKind;
use tables::PLACES;

impl<'a> Complete<'a> {
    // Where the read of line `n` has a wrong word, its source.
    fn check_read<K: WordKind>(
        &self,
        kind: &K,
        sheet: &mut Sheet<K::Word>,
        n: usize,
    ) -> Option<Option<usize>>
        ensures checked { (w : Waits) → Checked (case w K.WordKind (contents self.now.standing.tables.now) self.now.standing.order.now sheet.old.places.now) n result }
        ensures within { IfSome result (λ w. Within w) }
        ensures same { sheet.new ≡ sheet.old }
    {
        if !self.standing.tables.reads(n) {
            return None;
        }
        let source = self.source(n);
        let due = source_word(
            self.standing.tables,
            kind,
            sheet,
            self.standing.tables.cell(n),
            source,
        );
        let word = word_at(kind, sheet, n);
        if kind.same(&word, &due) {
            None
        } else {
            Some(source)
        }
    }

    // The lowest read that has a wrong word, and its source.
    pub(crate) fn first_wrong<K: WordKind>(
        &self,
        kind: &K,
        sheet: &mut Sheet<K::Word>,
    ) -> Option<(usize, Option<usize>)>
        ensures checked { (w : Waits) → AllChecked (case w K.WordKind (contents self.now.standing.tables.now) self.now.standing.order.now sheet.old.places.now) result }
        ensures within { IfSome result (λ p. (p.0 < 128) × Within p.1) }
        ensures same { sheet.new ≡ sheet.old }
    {
        // A loop, since with `find_map`, whose closure has the sheet, the proof did not close.
        for n in 0..PLACES {
            if let Some(source) = self.check_read(kind, sheet, n) {
                return Some((n, source));
            }
        }
        None
    }
}
