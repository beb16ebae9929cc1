// The calls that a machine takes while it runs.
ghost use Rattle.std.specs.Prelude.{◌≡◌, map, length, Some, MatchResult};
ghost use Rattle.rules.specs.Sheets.{IsSameLoan};
ghost use Rattle.model.specs.Program.{words_of};
ghost use Rattle.model.specs.Machine.{issue_refusal, drain_refusal};
ghost use Rattle.machine.specs.Machines.{state_of, lines_of, program_of};
ghost use Rattle.machine.specs.Calls.{Issued, Drained};

use super::Machine;
use faults::Fault;
use rules::sheet::Sheet;
use rules::wait::WaitRule;
use rules::words::WordKind;

// Rule, kind and sheet come one by one: the caller keeps them, may change the rule between calls, and drains with the rule alone.
impl Machine {
    /// Takes the next line of a processor: a load's word goes on the sheet and its read joins the order, a store's write
    /// becomes held, and a swap does both. Or refuses, and leaves machine and sheet as they were.
    pub fn issue<R: WaitRule, K: WordKind>(
        &mut self,
        rule: &R,
        kind: &K,
        sheet: &mut Sheet<K::Word>,
        processor: u32,
    ) -> Result<(), Fault>
        ensures answer { MatchResult result
            (λ _. Issued R.WaitRule.waits (words_of K.WordKind) self.old (map K.WordKind.meaning sheet.old.places.now) (length sheet.old.places.now) processor self.new (map K.WordKind.meaning sheet.new.places.now))
            (λ e. (issue_refusal (program_of R.WaitRule.waits self.old) (state_of self.old) (length sheet.old.places.now) processor ≡ Some e)
            × (self.new ≡ self.old) × (sheet.new.places.now ≡ sheet.old.places.now)) }
        ensures tables { lines_of self.new ≡ lines_of self.old }
        ensures named { IsSameLoan sheet.old sheet.new }
    {
        let (n, line) = self.may_issue(rule, sheet.size(), processor)?;
        self.put_word(kind, sheet, n, line);
        self.put_issue(n, line.access.kind());
        Ok(())
    }

    /// Moves a held write to the end of the order and makes it its cell's last. Or refuses, and leaves the machine as it was.
    pub fn drain<R: WaitRule>(&mut self, rule: &R, processor: u32, line: u32) -> Result<(), Fault>
        ensures answer { MatchResult result
            (λ _. Drained R.WaitRule.waits self.old processor line self.new)
            (λ e. (drain_refusal (program_of R.WaitRule.waits self.old) (state_of self.old) processor line ≡ Some e) × (self.new ≡ self.old)) }
        ensures tables { lines_of self.new ≡ lines_of self.old }
    {
        let n = self.may_drain(rule, processor, line)?;
        self.put_drain(n);
        Ok(())
    }
}
