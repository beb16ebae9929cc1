// The judge.
ghost use Rattle.std.specs.Prelude.{◌≡◌, ◌<◌, length};
ghost use Rattle.tables.specs.Contents.{contents};
ghost use Rattle.tables.specs.Size.{unit};
ghost use Rattle.judging.specs.Case.{case, proposed, VerdictOn, Answered, PassesAll};

use crate::complete::Complete;
use crate::events::first_lacking;
use crate::naming::{broken, write_of};
use crate::proposal::Proposal;
use crate::standing::Standing;
use faults::Fault;
use model::verdict::{Axiom, Verdict};
use rules::sheet::Sheet;
use rules::wait::WaitRule;
use rules::words::WordKind;
use tables::PLACES;
use tables::tables::Tables;

// The verdict on an order that lists events of the tables. The axioms are tried from the lowest, so that each search may
// lean on those before it.
pub(crate) fn weigh<R: WaitRule, K: WordKind>(
    rule: &R,
    kind: &K,
    standing: Standing,
    sheet: &mut Sheet<K::Word>,
) -> Verdict
    ensures judged { VerdictOn (case R.WaitRule.waits K.WordKind (contents standing.entry.tables.now) standing.entry.order.now sheet.old.places.now) result }
    ensures same { sheet.new ≡ sheet.old }
{
    if let Some(e) = standing.first_disorder() {
        return Err(broken(Axiom::Order, e, None));
    }
    if let Some(e) = standing.first_missing() {
        return Err(broken(Axiom::Termination, e, None));
    }
    let complete = Complete { standing };
    if let Some((e, f)) = complete.standing.first_load() {
        return Err(broken(Axiom::LoadOp, e, Some(f)));
    }
    if let Some((e, f)) = complete.standing.first_wait(rule) {
        return Err(broken(Axiom::Wait, e, Some(f)));
    }
    if let Some((e, f)) = complete.standing.first_swap() {
        return Err(broken(Axiom::Atomicity, e, Some(f)));
    }
    if let Some((n, source)) = complete.first_wrong(kind, sheet) {
        return Err(broken(Axiom::Value, 2 * n, write_of(source)));
    }
    Ok(())
}

impl<R: WaitRule, K: WordKind> Proposal<'_, '_, R, K> {
    /// Judges an order with the words on a sheet: that it passes, or the lowest axiom that it breaks and the events.
    /// Refuses a sheet that is too short, and else an order with an event that the tables lack.
    pub fn judge(&self, sheet: &mut Sheet<K::Word>) -> Result<Verdict, Fault>
        ensures answer { Answered (proposed R.WaitRule.waits K.WordKind self.now sheet.old.places.now) (length sheet.old.places.now) result }
        ensures exactly { PassesAll (proposed R.WaitRule.waits K.WordKind self.now sheet.old.places.now) (length sheet.old.places.now) result }
        ensures same { sheet.new ≡ sheet.old }
    {
        let size = sheet.size();
        if size < PLACES {
            return Err(Fault::SheetShort(size));
        }
        if let Some(i) = first_lacking(self.tables, self.order) {
            return Err(Fault::EventLacking(i));
        }
        let standing = Standing::of(self.tables, self.order);
        Ok(weigh(self.rule, self.kind, standing, sheet))
    }
}
