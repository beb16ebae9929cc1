// The tests of a call, in sequence: the line that it concerns, or why it is refused.
ghost use Rattle.std.specs.Prelude.{◌≡◌, Some, MatchResult};
ghost use Rattle.model.specs.Machine.{issue_refusal, drain_refusal};
ghost use Rattle.machine.specs.Machines.{state_of, program_of};
ghost use Rattle.machine.specs.Tests.{Issuable, Drainable};

use super::Machine;
use faults::Fault;
use rules::wait::WaitRule;
use tables::line::Line;
use tables::tables::Tables;
use tables::{LINES, PLACES};

impl Machine {
    // The line that an issue takes, or why it is refused.
    pub(super) fn may_issue<R: WaitRule>(
        &self,
        rule: &R,
        room: usize,
        processor: u32,
    ) -> Result<(usize, Line), Fault>
        ensures { MatchResult result
            (λ t. Issuable R.WaitRule.waits self.now room processor t.0 t.1)
            (λ e. issue_refusal (program_of R.WaitRule.waits self.now) (state_of self.now) room processor ≡ Some e) }
    {
        let table = Tables::table_of(processor)?;
        if room < PLACES {
            return Err(Fault::SheetShort(room));
        }
        let row = self.inner.issued[table];
        if row >= LINES {
            return Err(Fault::NoLineLeft(processor as usize));
        }
        let n = LINES * table + row;
        let Some(line) = self.inner.tables.line_at(n) else {
            return Err(Fault::NoLineLeft(processor as usize));
        };
        let kind = line.access.kind();
        if !kind.reads() {
            return Ok((n, line));
        }
        if let Some(m) = self.lowest_stop(rule, n) {
            return Err(Fault::IssueWaits(m % LINES + 1));
        }
        if !kind.writes() {
            return Ok((n, line));
        }
        match self.inner.half {
            Some(swap) => Err(Fault::SwapHalfDone(u32::from(swap) as usize)),
            None => Ok((n, line)),
        }
    }

    // The line whose write a drain moves, or why it is refused.
    pub(super) fn may_drain<R: WaitRule>(
        &self,
        rule: &R,
        processor: u32,
        line: u32,
    ) -> Result<usize, Fault>
        ensures { MatchResult result
            (λ n. Drainable R.WaitRule.waits self.now processor line n)
            (λ e. drain_refusal (program_of R.WaitRule.waits self.now) (state_of self.now) processor line ≡ Some e) }
    {
        let n = self.inner.tables.place_of(processor, line)?;
        if !self.holds(n) {
            return Err(Fault::NotHeld(line as usize));
        }
        if let Some(m) = self.lowest_stop(rule, n) {
            return Err(Fault::DrainWaits(m % LINES + 1));
        }
        if let Some(swap) = self.inner.half {
            if swap.at.place() != n {
                return Err(Fault::SwapHalfDone(u32::from(swap) as usize));
            }
        }
        Ok(n)
    }
}
