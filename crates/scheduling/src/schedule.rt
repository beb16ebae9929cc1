// The schedule of an order that is judged first.
ghost use Rattle.std.specs.Prelude.{◌≡◌, length};
ghost use Rattle.tables.specs.Contents.{contents};
ghost use Rattle.model.specs.Program.{words_of};
ghost use Rattle.judging.specs.Case.{proposed};
ghost use Rattle.judging.specs.Outcomes.{IfPassed};
ghost use Rattle.judging.specs.Words.{words_on};
ghost use Rattle.scheduling.specs.Scheduled.{Scheduled, SchedulesAll, ReachedBySchedule};

use crate::needed::calls_needed;
use crate::progress::write_calls;
use faults::Fault;
use judging::proposal::Proposal;
use model::verdict::Verdict;
use rules::sheet::Sheet;
use rules::wait::WaitRule;
use rules::words::WordKind;

/// Judges an order as `judge` does. Where it passes, writes the codes of the calls that complete a new machine with it, and
/// gives their number; refuses an output that is too short for them. Else the output is left as it was.
pub fn schedule<R: WaitRule, K: WordKind>(
    proposal: &Proposal<R, K>,
    sheet: &mut Sheet<K::Word>,
    output: &mut [u32],
) -> Result<Verdict<usize>, Fault>
    ensures answer { Scheduled (proposed R.WaitRule.waits K.WordKind proposal.now sheet.old.places.now) (length sheet.old.places.now) output.old output.new result }
    ensures exactly { SchedulesAll (proposed R.WaitRule.waits K.WordKind proposal.now sheet.old.places.now) (length sheet.old.places.now) (length output.old) result }
    ensures reached { IfPassed result (λ _. ReachedBySchedule R.WaitRule.waits (words_of K.WordKind) (contents proposal.now.tables.now) proposal.now.order.now (words_on K.WordKind sheet.old.places.now)) }
    ensures same { sheet.new ≡ sheet.old }
{
    if let Err(breach) = proposal.judge(sheet)? {
        return Ok(Err(breach));
    }
    let needed = calls_needed(proposal.tables);
    if output.len() < needed {
        return Err(Fault::OutputShort(needed));
    }
    Ok(Ok(write_calls(proposal.order, output)))
}
