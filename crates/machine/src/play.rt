// Whole runs of a machine.
ghost use Rattle.std.specs.Prelude.{◌≡◌, map};
ghost use Rattle.tables.specs.Size.{unit};
ghost use Rattle.tables.specs.Contents.{contents};
ghost use Rattle.rules.specs.Sheets.{IsSameLoan};
ghost use Rattle.model.specs.Program.{stored_at, words_of};
ghost use Rattle.model.specs.Machine.{step};
ghost use Rattle.machine.specs.Machines.{lines_of, program_of};
ghost use Rattle.machine.specs.Calls.{run_of};
ghost use Rattle.machine.specs.Plays.{Played};

use crate::ended::Ended;
use crate::machine::Machine;
use model::call::Call;
use rules::sheet::Sheet;
use rules::wait::WaitRule;
use rules::words::WordKind;
use tables::draft::Draft;

// Makes one call; a refused one changes nothing.
fn make<R: WaitRule, K: WordKind>(
    machine: &mut Machine,
    rule: &R,
    kind: &K,
    sheet: &mut Sheet<K::Word>,
    call: Call,
)
    ensures after { run_of machine.new (map K.WordKind.meaning sheet.new.places.now) ≡ step (program_of R.WaitRule.waits machine.old) (stored_at (words_of K.WordKind) unit (lines_of machine.old)) K.WordKind.starts call (run_of machine.old (map K.WordKind.meaning sheet.old.places.now)) }
    ensures tables { lines_of machine.new ≡ lines_of machine.old }
    ensures named { IsSameLoan sheet.old sheet.new }
{
    // Each call has a method of its own.
    let _ = match call {
        Call::Issue(processor) => machine.issue(rule, kind, sheet, processor),
        Call::Drain(processor, line) => machine.drain(rule, processor, line),
    };
}

/// Closes a draft, makes some calls on the machine, refused ones included, and finishes it: whatever the calls are, the order
/// meets the six axioms for the lines issued and the words on the sheet.
pub fn play<R: WaitRule, K: WordKind>(
    draft: Draft,
    rule: &R,
    kind: &K,
    sheet: &mut Sheet<K::Word>,
    calls: &[Call],
) -> Ended
    ensures played { Played R.WaitRule.waits (words_of K.WordKind) (contents draft.tables) calls.now (map K.WordKind.meaning sheet.old.places.now) result (map K.WordKind.meaning sheet.new.places.now) }
    ensures named { IsSameLoan sheet.old sheet.new }
{
    let mut machine = Machine::close(draft);
    for call in calls {
        make(&mut machine, rule, kind, sheet, *call);
    }
    machine.finish()
}
