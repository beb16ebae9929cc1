// Searches: for what a line must wait, and from which write a read takes its word.
ghost use Rattle.std.specs.Prelude.{◌≡◌, ◌==◌, ◌<◌, ◌≤◌, ◌&&◌, IfSome};
ghost use Rattle.tables.specs.Size.{unit};
ghost use Rattle.tables.specs.View.{cell_at};
ghost use Rattle.model.specs.Machine.{blocker, source};
ghost use Rattle.machine.specs.Machines.{state_of, lines_of, program_of};

use super::Machine;
use model::waiting::waits;
use rules::wait::WaitRule;
use tables::LINES;

impl Machine {
    // Whether a line is held and another must wait for it.
    fn is_stopped<R: WaitRule>(&self, rule: &R, m: usize, n: usize) -> bool
        ensures { result ≡ ((state_of self.now).held m && (program_of R.WaitRule.waits self.now).wait m n) }
    {
        self.holds(m) && waits(&self.inner.tables, rule, m, n)
    }

    // The lowest held line that a line must wait for.
    pub(super) fn lowest_stop<R: WaitRule>(&self, rule: &R, n: usize) -> Option<usize>
        requires { n < 128 }
        ensures { result ≡ blocker (program_of R.WaitRule.waits self.now) (state_of self.now) n }
    {
        (n - n % LINES..n).find(|&m| self.is_stopped(rule, m, n))
    }

    // Whether a line is held and writes the cell.
    fn is_feeding(&self, m: usize, cell: u8) -> bool
        ensures { result ≡ ((state_of self.now).held m && (cell_at unit (lines_of self.now) m == cell)) }
    {
        self.holds(m) && self.inner.tables.cell(m) == cell
    }

    // The line of a cell's last drained write.
    fn last_write(&self, cell: u8) -> Option<usize>
        requires { cell ≤ 63 }
        ensures within { IfSome result (λ j. j < 128) }
        ensures value { result ≡ (state_of self.now).last cell }
    {
        self.inner.last[cell as usize].map(|write| write.at.place())
    }

    // The line whose write a read of line n takes its word from.
    pub(super) fn source_of(&self, n: usize, cell: u8) -> Option<usize>
        requires within { n < 128 }
        requires own { cell ≡ cell_at unit (lines_of self.now) n }
        ensures within { IfSome result (λ j. j < 128) }
        ensures value { result ≡ source unit (cell_at unit (lines_of self.now)) (state_of self.now) n }
    {
        (n - n % LINES..n)
            .rev()
            .find(|&m| self.is_feeding(m, cell))
            .or_else(|| self.last_write(cell))
    }
}
