// Pairs of events of one table that should stand in a sequence and do not: LoadOp and Wait.
ghost use Rattle.std.specs.Prelude.{◌≡◌, ◌+◌, ◌*◌, ◌/◌, ◌<◌, ◌≤◌};
ghost use Rattle.tables.specs.Contents.{contents};
ghost use Rattle.tables.specs.Size.{unit};
ghost use Rattle.judging.specs.Searches.{Lowest, LowestPair};
ghost use Rattle.judging.specs.Standings.{AheadUpTo};
ghost use Rattle.judging.specs.Tests.{load_bad, wait_bad, waits_here};

use crate::rows::lowest_pair;
use crate::standing::Standing;
use model::waiting::waits;
use rules::wait::WaitRule;
use tables::LINES;
use tables::tables::Tables;

// The first code past those of the table of `e`.
fn past_table(e: usize) -> usize
    requires { e < 256 }
    ensures { result ≡ (e / 64 + 1) * 64 }
{
    (e / (2 * LINES) + 1) * (2 * LINES)
}

// Whether `f` is the event at which its line waits.
fn is_waiter(tables: &Tables, f: usize) -> bool
    ensures { result ≡ waits_here unit (contents tables.now) f }
{
    tables.is_write(f) || (tables.is_read(f) && !tables.writes(f / 2))
}

impl<'a> Standing<'a> {
    // The first later code of its table that does not stand after the event `e`, or the first code past the table. A code that
    // does not stand at all counts as standing later. A search of its own by places alone, and not put into its callers, since
    // mostly it is the whole search: so its loop stays short.
    #[inline(never)]
    fn first_behind(&self, e: usize) -> usize
        requires { e < 256 }
        ensures within { (e < result) × (result ≤ (e / 64 + 1) * 64) }
        ensures ahead { AheadUpTo self.now.order.now e result }
    {
        let place = self.stands[e].place;
        let past = past_table(e);
        match (e + 1..past).find(|&f| self.stands[f].place <= place) {
            Some(f) => f,
            None => past,
        }
    }

    // The lowest event before which the read `e` should stand, and does not. Only its own table can have one.
    fn load_row(&self, e: usize) -> Option<usize>
        requires { e < 256 }
        ensures { Lowest (load_bad unit (contents self.now.tables.now) self.now.order.now e) result }
    {
        if !self.tables.is_read(e) {
            return None;
        }
        let place = self.stands[e].place;
        (self.first_behind(e)..past_table(e)).find(|&f| self.stands[f].place <= place
            && self.tables.is_event(f))
    }

    // The lowest pair that breaks LoadOp.
    pub(crate) fn first_load(&self) -> Option<(usize, usize)>
        ensures { LowestPair (load_bad unit (contents self.now.tables.now) self.now.order.now) result }
    {
        lowest_pair(|e| self.load_row(e))
    }

    // The lowest event that should wait for the write `e`, and does not.
    fn wait_row<R: WaitRule>(&self, rule: &R, e: usize) -> Option<usize>
        requires { e < 256 }
        ensures { Lowest (wait_bad unit (contents self.now.tables.now) self.now.order.now R.WaitRule.waits e) result }
    {
        if !self.tables.is_write(e) {
            return None;
        }
        let place = self.stands[e].place;
        (self.first_behind(e)..past_table(e)).find(|&f| {
            self.stands[f].place <= place
                && is_waiter(self.tables, f)
                && waits(self.tables, rule, e / 2, f / 2)
        })
    }

    // The lowest pair that breaks Wait.
    pub(crate) fn first_wait<R: WaitRule>(&self, rule: &R) -> Option<(usize, usize)>
        ensures { LowestPair (wait_bad unit (contents self.now.tables.now) self.now.order.now R.WaitRule.waits) result }
    {
        lowest_pair(|e| self.wait_row(rule, e))
    }
}
