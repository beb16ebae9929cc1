// Where each event stands in an order, and how often.
ghost use Rattle.std.specs.Prelude.{◌≡◌, length};
ghost use Rattle.tables.specs.Contents.{contents};
ghost use Rattle.tables.specs.Size.{unit};
ghost use Rattle.tables.specs.View.{is_event};
ghost use Rattle.judging.specs.Searches.{AllBelow};
ghost use Rattle.judging.specs.Standings.{StandsOf};

use tables::EVENTS;
use tables::tables::Tables;

/// Where an event stands first in an order, and how often. One that does not stand has the order's length as its place,
/// since places are compared, and it comes after all that stand.
#[derive(Clone, Copy)]
pub(crate) struct Stand {
    pub(crate) place: usize,
    pub(crate) times: usize,
}

/// An order of events of the tables, and where each event stands.
#[derive(Drop)]
pub(crate) struct Standing<'a> {
    pub(crate) tables: &'a Tables,
    pub(crate) order: &'a [u32],
    pub(crate) stands: [Stand; EVENTS],
    ghost listed: { AllBelow (is_event unit (contents tables.now)) order.now (length order.now) },
    ghost stood: { StandsOf order.now stands },
}

impl<'a> Standing<'a> {
    /// Notes where and how often each event stands in an order of events of the tables.
    pub(crate) fn of(tables: &'a Tables, order: &'a [u32]) -> Standing<'a>
        requires { AllBelow (is_event unit (contents tables.now)) order.now (length order.now) }
        ensures of_tables { result.tables.now ≡ tables.now }
        ensures of_order { result.order.now ≡ order.now }
    {
        let mut stands = [Stand {
            place: order.len(),
            times: 0,
        }; EVENTS];
        for (i, &code) in order.iter().enumerate() {
            let stand = &mut stands[code as usize];
            stand.place = stand.place.min(i);
            stand.times += 1;
        }
        Standing {
            tables,
            order,
            stands,
        }
    }
}
