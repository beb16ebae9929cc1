// What a call writes once nothing refuses it. That the tables stay is a clause each time: it speaks of before and after, and no
// invariant can.
ghost use Rattle.std.specs.Prelude.{◌≡◌, ◌/◌, ◌%◌, ◌<◌, true, slice_index};
ghost use Rattle.tables.specs.Size.{unit};
ghost use Rattle.tables.specs.Lines.{reads, writes};
ghost use Rattle.tables.specs.View.{cell_at};
ghost use Rattle.model.specs.Machine.{after_issue, after_drain};
ghost use Rattle.machine.specs.Machines.{state_of, lines_of};

use super::Machine;
use crate::mark::Mark;
use crate::spots::event_of;
use tables::LINES;
use tables::event::Side;
use tables::line::Kind;

impl Machine {
    // Whether the write of a line is held.
    pub(super) fn holds(&self, n: usize) -> bool
        ensures { result ≡ (state_of self.now).held n }
    {
        self.inner.marks.get(n) == Some(&Mark::Held)
    }

    // A held write joins the order and is its cell's last.
    pub(super) fn put_drain(&mut self, n: usize)
        requires inside { n < 128 }
        requires held { (state_of self.old).held n ≡ true }
        ensures state { state_of self.new ≡ after_drain (state_of self.old) n (cell_at unit (lines_of self.old) n) }
        ensures tables { lines_of self.new ≡ lines_of self.old }
    {
        let cell = self.inner.tables.cell(n);
        let write = event_of(n, Side::Write);
        self.inner.last[cell as usize] = Some(write);
        self.inner.half = None;
        self.inner.append(write.into());
        self.inner.set_mark(n, Mark::Done);
    }

    // The next line of a table becomes issued: its read joins the order, its write becomes held, and a swap is half done.
    pub(super) fn put_issue(&mut self, n: usize, kind: Kind)
        requires inside { n < 128 }
        requires next { n % 32 ≡ slice_index self.old.inner.issued (n / 32) }
        ensures state { state_of self.new ≡ after_issue unit (state_of self.old) n (reads kind) (writes kind) }
        ensures tables { lines_of self.new ≡ lines_of self.old }
    {
        let read = event_of(n, Side::Read);
        self.inner.issued[n / LINES] += 1;
        // Each kind of line does something of its own.
        match kind {
            Kind::Load => {
                self.inner.append(read.into());
                self.inner.set_mark(n, Mark::Done);
            }
            Kind::Store => self.inner.set_mark(n, Mark::Held),
            Kind::Swap => {
                self.inner.half = Some(read);
                self.inner.append(read.into());
                self.inner.set_mark(n, Mark::Held);
            }
        }
    }
}
