// The write that a read should have.
ghost use Rattle.std.specs.Prelude.{◌≡◌, ◌*◌, ◌/◌, ◌<◌, true};
ghost use Rattle.tables.specs.Contents.{contents};
ghost use Rattle.tables.specs.Size.{unit, wr};
ghost use Rattle.tables.specs.View.{reads_at};
ghost use Rattle.rules.specs.Waits.{Waits};
ghost use Rattle.model.specs.Program.{program};
ghost use Rattle.model.specs.Axioms.{Should};
ghost use Rattle.model.proofs.Positions.{place};
ghost use Rattle.judging.specs.Sources.{Best, Later, Within};
ghost use Rattle.judging.specs.Tests.{writes_cell};

use crate::complete::Complete;
use tables::LINES;
use tables::tables::Tables;

// Whether line `m` writes the cell of line `n`.
fn writes_cell(tables: &Tables, n: usize, m: usize) -> bool
    ensures { result ≡ writes_cell unit (contents tables.now) n m }
{
    tables.writes(m) && tables.cell(m) == tables.cell(n)
}

impl<'a> Complete<'a> {
    // The last write to the cell of line `n` that stands before its read.
    fn last_before(&self, n: usize) -> Option<usize>
        requires { n < 128 }
        ensures { Best unit (contents self.now.standing.tables.now) self.now.standing.order.now n (n / 32 * 32) result }
    {
        let before = &self.standing.order[..self.standing.stands[2 * n].place];
        let i = before.iter().rposition(|&code| {
            let e = code as usize;
            e % 2 == 1 && writes_cell(self.standing.tables, n, e / 2)
        })?;
        Some(self.standing.order[i] as usize / 2)
    }

    // Where the write of line `m` stands first.
    fn write_place(&self, m: usize) -> usize
        requires { m < 128 }
        ensures { result ≡ place self.now.standing.order.now (wr m) }
    {
        self.standing.stands[2 * m + 1].place
    }

    // Whether the write of line `m` stands later than that of `best`, or there is no best.
    fn is_later(&self, best: Option<usize>, m: usize) -> bool
        requires { (Within best) × (m < 128) }
        ensures { Later self.now.standing.order.now best m result }
    {
        // A match, since with `is_none_or` the proof did not close.
        match best {
            None => true,
            Some(b) => self.write_place(b) < self.write_place(m),
        }
    }

    // The line whose write the read of line `n` should have, or none for the start word.
    pub(crate) fn source(&self, n: usize) -> Option<usize>
        requires { reads_at unit (contents self.now.standing.tables.now) n ≡ true }
        ensures should { (w : Waits) → Should (program unit w (contents self.now.standing.tables.now)) self.now.standing.order.now n result }
        ensures within { Within result }
    {
        let mut best = self.last_before(n);
        // A loop, plainer than a fold that hands the best on.
        for m in n / LINES * LINES..n {
            if writes_cell(self.standing.tables, n, m) && self.is_later(best, m) {
                best = Some(m);
            }
        }
        best
    }
}
