// The theorems of the model, each on a function that carries it for every waiting rule and every kind of word. The functions
// differ in their clause alone, and no parameter can be a clause.
ghost use Rattle.model.specs.Program.{words_of};
ghost use Rattle.model.specs.Theorems.{MachineMeetsAxioms, CompletedMeetsAxioms, AxiomsReachedBySchedule, ReachedExactlyIfAxioms, CallsToComplete, TraceFindsTheWord};

use rules::wait::WaitRule;
use rules::words::WordKind;

/// Whatever calls are made, finishing gives an order that meets the axioms for the lines issued and the words on the sheet.
pub fn machine_meets_axioms<R: WaitRule, K: WordKind>()
    ensures { MachineMeetsAxioms R.WaitRule.waits (words_of K.WordKind) }
{}

/// Whatever calls are made, a machine is completed only with an order that meets the axioms.
pub fn completed_meets_axioms<R: WaitRule, K: WordKind>()
    ensures { CompletedMeetsAxioms R.WaitRule.waits (words_of K.WordKind) }
{}

/// The calls of its schedule, none of which is refused, complete a new machine with an order that meets the axioms.
pub fn axioms_reached_by_schedule<R: WaitRule, K: WordKind>()
    ensures { AxiomsReachedBySchedule R.WaitRule.waits (words_of K.WordKind) }
{}

/// An order with its words meets the axioms exactly if some calls, none refused, complete a new machine with it.
pub fn reached_exactly_if_axioms<R: WaitRule, K: WordKind>()
    ensures { ReachedExactlyIfAxioms R.WaitRule.waits (words_of K.WordKind) }
{}

/// Accepted calls that complete a machine are as many as the tables have lines and writes.
pub fn calls_to_complete<R: WaitRule, K: WordKind>()
    ensures { CallsToComplete R.WaitRule.waits (words_of K.WordKind) }
{}

/// In an order that meets the axioms each read has one trace, of at most as many reads as the tables have, and it finds the
/// word read.
pub fn trace_finds_the_word<R: WaitRule, K: WordKind>()
    ensures { TraceFindsTheWord R.WaitRule.waits (words_of K.WordKind) }
{}
