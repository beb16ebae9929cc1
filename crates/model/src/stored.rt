// The words that lines write and that reads get, by tables and a sheet.
ghost use Rattle.std.specs.Prelude.{◌≡◌, ◌<◌, ◌≤◌, map, IfSome};
ghost use Rattle.tables.specs.Size.{unit};
ghost use Rattle.tables.specs.Contents.{contents};
ghost use Rattle.tables.specs.View.{copy_at, number_at};
ghost use Rattle.model.specs.Program.{stored_at, words_of};
ghost use Rattle.model.specs.Axioms.{worth};
ghost use Rattle.model.specs.Machine.{words_on};

use rules::sheet::Sheet;
use rules::words::WordKind;
use tables::line::Operand;
use tables::line_id::LineId;
use tables::tables::Tables;
use tables::{LINES, PLACES};

// No option: the axioms have a word for every place.
/// The word that stands at a place of the sheet; past its end, a start word. Nothing changes.
pub fn word_at<K: WordKind>(kind: &K, sheet: &mut Sheet<K::Word>, place: usize) -> K::Word
    ensures value { K.WordKind.meaning result ≡ words_on K.WordKind.starts (map K.WordKind.meaning sheet.old.places.now) place }
    ensures same { sheet.new ≡ sheet.old }
{
    // A match, since with `unwrap_or_else` the proof did not close.
    match sheet.get(place) {
        Some(word) => word,
        None => kind.start(0),
    }
}

// The number that the line at a place writes, and 0 where it writes none, as the definition of the same name has it.
fn number_at(tables: &Tables, place: usize) -> u32
    ensures { result ≡ number_at unit (contents tables.now) place }
{
    match tables.operand(place) {
        Some(Operand::Written(number)) => number,
        _ => 0,
    }
}

/// The place of the line whose word the line at a place copies, if it copies one.
#[tactic(auto, using(crate::proofs::StoredWords::copy_at_past, crate::proofs::StoredWords::copied_by_place))]
pub fn copied_place(tables: &Tables, place: usize) -> Option<usize>
    ensures { result ≡ copy_at unit (contents tables.now) place }
{
    if place >= PLACES {
        return None;
    }
    match tables.operand(place)? {
        Operand::Written(_) => None,
        Operand::Copied(line) => {
            let row = line.saturating_sub(1) as usize;
            Some(place / LINES * LINES + row)
        }
    }
}

/// The word that the line at a place writes, with those on the sheet; past the last place, a start word. Nothing changes.
#[tactic(auto, using(crate::proofs::StoredWords::stored_written, crate::proofs::StoredWords::stored_copied))]
pub fn stored_word<K: WordKind>(
    tables: &Tables,
    kind: &K,
    sheet: &mut Sheet<K::Word>,
    place: usize,
) -> K::Word
    ensures value { place < 128 → K.WordKind.meaning result ≡ stored_at (words_of K.WordKind) unit (contents tables.now) (words_on K.WordKind.starts (map K.WordKind.meaning sheet.old.places.now)) place }
    ensures past { 128 ≤ place → K.WordKind.meaning result ≡ K.WordKind.starts 0 }
    ensures same { sheet.new ≡ sheet.old }
{
    // No option: callers have a line of the tables, and the contract says what comes past the last place.
    if place >= PLACES {
        return kind.start(0);
    }
    match copied_place(tables, place) {
        Some(copied) => word_at(kind, sheet, copied),
        None => {
            let line = LineId::at(place).unwrap();
            kind.written(number_at(tables, place), line)
        }
    }
}

/// The word that a read of a cell gets from the line at its source, and where it has none the cell's start word. Nothing changes.
pub fn source_word<K: WordKind>(
    tables: &Tables,
    kind: &K,
    sheet: &mut Sheet<K::Word>,
    cell: u8,
    source: Option<usize>,
) -> K::Word
    ensures value { IfSome source (λ m. m < 128) → K.WordKind.meaning result ≡ worth (stored_at (words_of K.WordKind) unit (contents tables.now)) K.WordKind.starts (words_on K.WordKind.starts (map K.WordKind.meaning sheet.old.places.now)) cell source }
    ensures past { IfSome source (λ m. 128 ≤ m → K.WordKind.meaning result ≡ K.WordKind.starts 0) }
    ensures same { sheet.new ≡ sheet.old }
{
    match source {
        Some(place) => stored_word(tables, kind, sheet, place),
        None => kind.start(cell),
    }
}
