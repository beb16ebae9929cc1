// An order that passed, and what is told of it.
ghost use Rattle.std.specs.Prelude.{◌^◌, ◌<◌, length};
ghost use Rattle.tables.specs.Contents.{contents};
ghost use Rattle.tables.specs.Size.{unit};
ghost use Rattle.judging.specs.Traces.{ReadsLead};

use crate::complete::Complete;
use crate::naming::{event_if, write_of};
use crate::proposal::Proposal;
use crate::standing::Standing;
use crate::trace::trace_read;
use faults::Fault;
use model::verdict::Verdict;
use rules::sheet::Sheet;
use rules::wait::WaitRule;
use rules::words::{Origin, WordKind};
use tables::event::Event;

/// Tables with an order of their events that passed, and where each event stands. What it keeps of the axioms is what a trace
/// leans on: each event stands, and once, and a read before every later event of its table.
#[derive(Drop)]
pub struct Passing<'a> {
    pub(crate) complete: Complete<'a>,
    ghost short: { length complete.standing.order.now < 2 ^ 64 },
    ghost leads: { ReadsLead unit (contents complete.standing.tables.now) complete.standing.order.now },
}

/// Where the trace of a read ends, and how many reads it met, the first included.
#[derive(Clone, Copy)]
pub struct Trace {
    pub end: Origin,
    pub reads: usize,
}

impl<'a, R: WaitRule, K: WordKind> Proposal<'a, '_, R, K> {
    ghost use Rattle.std.specs.Prelude.{◌≡◌};
    ghost use Rattle.judging.specs.Case.{proposed, Answered, PassesAll};
    ghost use Rattle.judging.specs.Outcomes.{IfPassed, rows_of, order_of};

    /// Judges an order as `judge` does, and hands it out for questions where it passes.
    pub fn pass(&self, sheet: &mut Sheet<K::Word>) -> Result<Verdict<Passing<'a>>, Fault>
        ensures answer { Answered (proposed R.WaitRule.waits K.WordKind self.now sheet.old.places.now) (length sheet.old.places.now) result }
        ensures exactly { PassesAll (proposed R.WaitRule.waits K.WordKind self.now sheet.old.places.now) (length sheet.old.places.now) result }
        ensures passed { IfPassed result (λ p. (rows_of p ≡ contents self.now.tables.now) × (order_of p ≡ self.now.order.now)) }
        ensures same { sheet.new ≡ sheet.old }
    {
        // No `map`: its closure would have to require all that a passing order keeps.
        match self.judge(sheet)? {
            Ok(()) => Ok(Ok(Passing {
                complete: Complete {
                    standing: Standing::of(self.tables, self.order),
                },
            })),
            Err(breach) => Ok(Err(breach)),
        }
    }
}

impl<'a> Passing<'a> {
    ghost use Rattle.std.specs.Prelude.{◌≡◌, true, false, MatchOption};
    ghost use Rattle.tables.specs.View.{reads_at, copy_at};
    ghost use Rattle.rules.specs.Waits.{Waits};
    ghost use Rattle.model.specs.Program.{program};
    ghost use Rattle.model.specs.Trace.{ReadTrace};
    ghost use Rattle.judging.specs.Outcomes.{rows_of, order_of, ReadsFrom};

    // The write that the read of line `n` should have, or none for the start word.
    pub(crate) fn source_of(&self, n: usize) -> Option<Event>
        requires { reads_at unit (rows_of self.now) n ≡ true }
        ensures { (w : Waits) → ReadsFrom (program unit w (rows_of self.now)) (order_of self.now) n result }
    {
        event_if(write_of(self.complete.source(n)))
    }

    /// The write that the read of the line at this place should have, or none for the start word; nothing if it reads nothing.
    pub fn source(&self, place: usize) -> Option<Option<Event>>
        ensures { MatchOption result (reads_at unit (rows_of self.now) place ≡ false)
            (λ s. (reads_at unit (rows_of self.now) place ≡ true)
            × ((w : Waits) → ReadsFrom (program unit w (rows_of self.now)) (order_of self.now) place s)) }
    {
        if !self.complete.standing.tables.reads(place) {
            return None;
        }
        Some(self.source_of(place))
    }

    /// The trace of the read of the line at this place; nothing if it reads nothing.
    pub fn trace(&self, place: usize) -> Option<Trace>
        ensures { MatchOption result (reads_at unit (rows_of self.now) place ≡ false)
            (λ t. (reads_at unit (rows_of self.now) place ≡ true)
            × ((w : Waits) → ReadTrace (program unit w (rows_of self.now)) (copy_at unit (rows_of self.now)) (order_of self.now) place t.end t.reads)) }
    {
        if !self.complete.standing.tables.reads(place) {
            return None;
        }
        Some(trace_read(self, place))
    }
}
