// The trace of a read to the written or start word that it comes from.
ghost use Rattle.std.specs.Prelude.{◌≡◌, ℕ, suc, ◌<◌, ◌≤◌, true, length, Some, None, Err, MatchResult};
ghost use Rattle.faults.specs.declared.Fault.{Fault};
ghost use Rattle.tables.specs.Contents.{contents};
ghost use Rattle.tables.specs.Size.{unit, rd};
ghost use Rattle.tables.specs.View.{reads_at, copy_at};
ghost use Rattle.rules.specs.Waits.{Waits};
ghost use Rattle.model.specs.Program.{program};
ghost use Rattle.model.specs.Trace.{ReadTrace, WriteTrace};
ghost use Rattle.model.proofs.Positions.{place};
ghost use Rattle.judging.specs.Asks.{asked_line, ask_refused};
ghost use Rattle.judging.specs.Case.{proposed, Answered, PassesAll};
ghost use Rattle.judging.specs.Outcomes.{IfPassed, rows_of, order_of, ReadsFrom, TracedOn};
ghost use Rattle.judging.specs.Traces.{reach};

use crate::passing;
use crate::passing::Passing;
use crate::proposal::Proposal;
use faults::Fault;
use model::stored::copied_place;
use model::verdict::Verdict;
use rules::sheet::Sheet;
use rules::wait::WaitRule;
use rules::words::{Origin, WordKind};
use tables::event::Event;
use tables::line_id::LineId;
use tables::tables::Tables;

// The trace of the read of line `n`, which the write that it should have goes on with.
#[cycle(trace_read_trace_write)]
pub(crate) fn trace_read(passing: &Passing, n: usize) -> passing::Trace
    requires { reads_at unit (rows_of passing.now) n ≡ true }
    ensures is { (w : Waits) → ReadTrace (program unit w (rows_of passing.now)) (copy_at unit (rows_of passing.now)) (order_of passing.now) n result.end result.reads }
    ensures few { result.reads ≤ suc (place (order_of passing.now) (rd n)) }
{
    match passing.complete.source(n) {
        None => passing::Trace {
            end: Origin::Start(passing.complete.standing.tables.cell(n)),
            reads: 1,
        },
        Some(m) => {
            let trace = trace_write(passing, m);
            passing::Trace {
                reads: trace.reads + 1,
                ..trace
            }
        }
    }
}

// The trace of the write of line `m`, which the read that it copied goes on with.
#[cycle(trace_read_trace_write)]
fn trace_write(passing: &Passing, m: usize) -> passing::Trace
    requires { m < 128 }
    ensures is { (w : Waits) → WriteTrace (program unit w (rows_of passing.now)) (copy_at unit (rows_of passing.now)) (order_of passing.now) m result.end result.reads }
    ensures few { result.reads ≤ reach (order_of passing.now) (copy_at unit (rows_of passing.now) m) }
{
    match copied_place(passing.complete.standing.tables, m) {
        None => passing::Trace {
            end: Origin::Line(LineId::at(m).unwrap()),
            reads: 0,
        },
        Some(k) => trace_read(passing, k),
    }
}

// The place of a line that reads, by processor and line; refuses what is no such line.
fn asked_place(tables: &Tables, processor: u32, line: u32) -> Result<usize, Fault>
    ensures { MatchResult result
        (λ n. (ask_refused (contents tables.now) processor line ≡ None) × (n ≡ asked_line processor line) × (reads_at unit (contents tables.now) n ≡ true))
        (λ e. ask_refused (contents tables.now) processor line ≡ Some e) }
{
    let place = tables.place_of(processor, line)?;
    if !tables.reads(place) {
        return Err(Fault::NothingRead(line as usize));
    }
    Ok(place)
}

impl<R: WaitRule, K: WordKind> Proposal<'_, '_, R, K> {
    /// The write that the read of a line should have, or none for the start word. Refuses a processor or a line that is not
    /// there and a line that reads nothing, and then judges the order; a broken verdict replaces the result.
    pub fn source(
        &self,
        sheet: &mut Sheet<K::Word>,
        processor: u32,
        line: u32,
    ) -> Result<Verdict<Option<Event>>, Fault>
        ensures refused { (e : Fault) → ask_refused (contents self.now.tables.now) processor line ≡ Some e → result ≡ Err e }
        ensures judged { ask_refused (contents self.now.tables.now) processor line ≡ None → Answered (proposed R.WaitRule.waits K.WordKind self.now sheet.old.places.now) (length sheet.old.places.now) result }
        ensures exactly { ask_refused (contents self.now.tables.now) processor line ≡ None → PassesAll (proposed R.WaitRule.waits K.WordKind self.now sheet.old.places.now) (length sheet.old.places.now) result }
        ensures passed { IfPassed result (ReadsFrom (program unit R.WaitRule.waits (contents self.now.tables.now)) self.now.order.now (asked_line processor line)) }
        ensures same { sheet.new ≡ sheet.old }
    {
        let place = asked_place(self.tables, processor, line)?;
        Ok(self.pass(sheet)?.map(|passing| passing.source_of(place)))
    }

    /// Where the word that a line read comes from, and how many reads the trace met. Refuses a processor or a line that is not
    /// there and a line that reads nothing, and then judges the order; a broken verdict replaces the result.
    pub fn trace(
        &self,
        sheet: &mut Sheet<K::Word>,
        processor: u32,
        line: u32,
    ) -> Result<Verdict<passing::Trace>, Fault>
        ensures refused { (e : Fault) → ask_refused (contents self.now.tables.now) processor line ≡ Some e → result ≡ Err e }
        ensures judged { ask_refused (contents self.now.tables.now) processor line ≡ None → Answered (proposed R.WaitRule.waits K.WordKind self.now sheet.old.places.now) (length sheet.old.places.now) result }
        ensures exactly { ask_refused (contents self.now.tables.now) processor line ≡ None → PassesAll (proposed R.WaitRule.waits K.WordKind self.now sheet.old.places.now) (length sheet.old.places.now) result }
        ensures passed { IfPassed result (TracedOn R.WaitRule.waits K.WordKind (contents self.now.tables.now) self.now.order.now sheet.old.places.now (asked_line processor line)) }
        ensures same { sheet.new ≡ sheet.old }
    {
        let place = asked_place(self.tables, processor, line)?;
        Ok(self.pass(sheet)?.map(|passing| trace_read(&passing, place)))
    }
}
