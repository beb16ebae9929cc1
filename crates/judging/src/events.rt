// Codes that the tables lack, and the events that break Order or Termination.
ghost use Rattle.std.specs.Prelude.{◌≡◌, ◌<◌};
ghost use Rattle.tables.specs.Contents.{contents};
ghost use Rattle.tables.specs.Size.{unit};
ghost use Rattle.tables.specs.View.{is_event};
ghost use Rattle.judging.specs.Searches.{Lowest, FirstNot};
ghost use Rattle.judging.specs.Tests.{order_bad, missing};

use crate::standing::Standing;
use tables::EVENTS;
use tables::tables::Tables;

// The first position whose event the tables lack.
pub(crate) fn first_lacking(tables: &Tables, order: &[u32]) -> Option<usize>
    ensures { FirstNot (is_event unit (contents tables.now)) order.now result }
{
    order
        .iter()
        .position(|&code| !tables.is_event(code as usize))
}

impl<'a> Standing<'a> {
    // A code is a plain number, bounded in each contract: it is counted and computed, and a type of its own would be taken apart at
    // each step.
    // Whether the event breaks Order.
    fn breaks_order(&self, e: usize) -> bool
        requires { e < 256 }
        ensures { result ≡ order_bad unit (contents self.now.tables.now) self.now.order.now e }
    {
        let times = self.stands[e].times;
        (self.tables.is_read(e) && times != 1) || (self.tables.is_write(e) && times > 1)
    }

    // The lowest event that breaks Order.
    pub(crate) fn first_disorder(&self) -> Option<usize>
        ensures { Lowest (order_bad unit (contents self.now.tables.now) self.now.order.now) result }
    {
        (0..EVENTS).find(|&e| self.breaks_order(e))
    }

    // Whether the event is a write that does not stand.
    fn is_missing(&self, e: usize) -> bool
        requires { e < 256 }
        ensures { result ≡ missing unit (contents self.now.tables.now) self.now.order.now e }
    {
        self.stands[e].times == 0 && self.tables.is_write(e)
    }

    // The lowest write that does not stand.
    pub(crate) fn first_missing(&self) -> Option<usize>
        ensures { Lowest (missing unit (contents self.now.tables.now) self.now.order.now) result }
    {
        (0..EVENTS).find(|&e| self.is_missing(e))
    }
}
