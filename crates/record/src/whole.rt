// A whole record, read.
ghost use Rattle.std.specs.Prelude.{◌≡◌, ℕ, ◌<◌, ◌≤◌, List, [], ◌++◌, length, take, drop, None, Decides, MatchResult, slice_index, slice_index_or};
ghost use Rattle.tables.specs.Contents.{contents};
ghost use Rattle.rules.specs.Sheets.{IsSameLoan};
ghost use Rattle.record.specs.Form.{Reads};
ghost use Rattle.record.specs.Record.{Marked, ruled, record_form, or_else, Read, NotRead};
ghost use Rattle.record.specs.Kept.{Kept, Gathered};
ghost use Rattle.record.specs.Laws.{SaysOne};

use crate::order::read_order;
use crate::sections::section;
use crate::tabled::{Reading, read_tables};
use arrayvec::ArrayVec;
use faults::Fault;
use numbers::read_number;
use rules::rule::Rule;
use rules::sheet::Sheet;
use tables::draft::Draft;
use tables::{EVENTS, PLACES};

/// How every record begins.
pub const MARK: &[u8] = b"SOR1";
/// How many bytes a record has at most.
pub const LONGEST: usize = 4096;

// A count beside the output, since `read` takes a slice of any length and tells how much of it the order is.
/// What a record says besides its claims and its order: the rule, the tables, and how many events the order has.
#[derive(Drop)]
pub struct Contents {
    pub rule: Rule,
    pub draft: Draft,
    pub count: usize,
}

// Whether the bytes begin with the mark.
fn is_marked(bytes: &[u8]) -> bool
    ensures { Decides result (Marked bytes.now 0) }
{
    bytes.starts_with(MARK)
}

// The rule whose number stands at `at`, and the place after it.
fn read_rule(bytes: &[u8], at: usize) -> Result<(Rule, usize), Fault>
    ensures { Reads (ruled bytes.now) at result }
{
    let (number, next) = read_number(bytes, 0, at)?;
    let Ok(rule) = Rule::try_from(number) else {
        return Err(Fault::RuleUnknown(at));
    };
    Ok((rule, next))
}

// Reads all that the bytes of a record say: gives the rule, and leaves the tables and the order in what is lent, since they are
// large.
fn read_bytes(
    reading: &mut Reading,
    codes: &mut ArrayVec<u32, EVENTS>,
    bytes: &[u8],
) -> Result<Rule, Fault>
    requires { (Kept [] (contents reading.old.draft.tables) reading.old.claims) × (codes.old.items ≡ []) }
    ensures { MatchResult result
        (λ w. Gathered bytes.now w (contents reading.new.draft.tables) reading.new.claims codes.new.items)
        (λ e. (record_form bytes.now).amiss 0 e) }
{
    if bytes.len() > LONGEST {
        return Err(Fault::RecordTooLong(LONGEST));
    }
    if !is_marked(bytes) {
        return Err(Fault::MarkMissing);
    }
    let (rule, begin) = read_rule(bytes, MARK.len())?;
    let middle = read_tables(reading, bytes, begin)?;
    let (part, end) = section(bytes, middle)?;
    read_order(codes, part)?;
    if end < bytes.len() {
        return Err(Fault::BytesLeft(end));
    }
    Ok(rule)
}

// Writes each claim at its place of the sheet.
fn put_claims(sheet: &mut Sheet<u32>, claims: &[Option<u32>])
    requires { length claims.now ≤ length sheet.old.places.now }
    ensures size { length sheet.new.places.now ≡ length sheet.old.places.now }
    ensures words { (n : ℕ) → slice_index sheet.new.places.now n ≡ or_else (slice_index_or claims.now n None) (slice_index sheet.old.places.now n) }
    ensures named { IsSameLoan sheet.old sheet.new }
{
    for (place, claim) in claims.iter().enumerate() {
        if let Some(claim) = claim {
            sheet.put(place, *claim);
        }
    }
}

// Writes the codes to the front of the output.
fn put_codes(output: &mut [u32], codes: &[u32])
    requires { length codes.now ≤ length output.old }
    ensures { output.new ≡ codes.now ++ drop (length codes.now) output.old }
{
    output[0..codes.len()].copy_from_slice(codes);
}

/// Reads a record: its tables into the room of the draft, whatever that held, its claims onto the sheet and its order into the output.
/// Or refuses, and writes nothing.
pub fn read(
    draft: Draft,
    bytes: &[u8],
    sheet: &mut Sheet<u32>,
    output: &mut [u32],
) -> Result<Contents, Fault>
    ensures read { MatchResult result
        (λ c. Read bytes.now sheet.old.places.now sheet.new.places.now output.old output.new
        c.rule (contents c.draft.tables) c.count)
        (λ e. NotRead bytes.now sheet.old.places.now sheet.new.places.now output.old output.new e) }
    ensures sole { SaysOne bytes.now (length sheet.old.places.now) (length output.old) }
    ensures named { IsSameLoan sheet.old sheet.new }
{
    if sheet.size() < PLACES {
        return Err(Fault::SheetShort(sheet.size()));
    }
    let mut reading = Reading::new(draft);
    let mut codes = ArrayVec::new();
    let rule = read_bytes(&mut reading, &mut codes, bytes)?;
    let count = codes.len();
    if output.len() < count {
        return Err(Fault::OutputShort(count));
    }
    put_claims(sheet, &reading.claims);
    put_codes(output, &codes);
    Ok(Contents {
        rule,
        draft: reading.draft,
        count,
    })
}
