// Writes that stand between the two events of a swap: Atomicity.
ghost use Rattle.std.specs.Prelude.{◌≡◌, ◌+◌, ◌<◌, true};
ghost use Rattle.tables.specs.Contents.{contents};
ghost use Rattle.tables.specs.Size.{unit};
ghost use Rattle.judging.specs.Searches.{Clear, Lowest, LowestPair};
ghost use Rattle.judging.specs.Tests.{swap_bad, swaps_here, writes_between};

use crate::rows::lowest_pair;
use crate::standing::Standing;
use tables::EVENTS;

impl<'a> Standing<'a> {
    // Whether only reads stand between the events `e` and `e + 1`. It is quick, and enough to pass a swap by.
    fn is_close(&self, e: usize) -> bool
        requires { e + 1 < 256 }
        ensures { result ≡ true → Clear (swap_bad unit (contents self.now.tables.now) self.now.order.now e) }
    {
        // By positions: a slice would have to begin before it ends, which an order need not keep to.
        (self.stands[e].place..self.stands[e + 1].place).all(|i| self.order[i] % 2 == 0)
    }

    // Whether `e` is the read of a swap.
    fn is_swap(&self, e: usize) -> bool
        ensures { result ≡ swaps_here unit (contents self.now.tables.now) e }
    {
        self.tables.is_read(e) && self.tables.writes(e / 2)
    }

    // Whether `f` is a write that stands between the events `e` and `e + 1`.
    fn is_between(&self, e: usize, f: usize) -> bool
        requires { (e + 1 < 256) × (f < 256) }
        ensures { result ≡ writes_between unit (contents self.now.tables.now) self.now.order.now e f }
    {
        let place = self.stands[f].place;
        self.tables.is_write(f) && self.stands[e].place < place && place < self.stands[e + 1].place
    }

    // The lowest write that stands between the events of the swap whose read is `e`.
    fn swap_row(&self, e: usize) -> Option<usize>
        requires { e < 256 }
        ensures { Lowest (swap_bad unit (contents self.now.tables.now) self.now.order.now e) result }
    {
        if !self.is_swap(e) || self.is_close(e) {
            return None;
        }
        (0..EVENTS).find(|&f| self.is_between(e, f))
    }

    // The lowest pair that breaks Atomicity.
    pub(crate) fn first_swap(&self) -> Option<(usize, usize)>
        ensures { LowestPair (swap_bad unit (contents self.now.tables.now) self.now.order.now) result }
    {
        lowest_pair(|e| self.swap_row(e))
    }
}
