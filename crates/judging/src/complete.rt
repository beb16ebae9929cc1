// Orders in which every event stands.
ghost use Rattle.tables.specs.Contents.{contents};
ghost use Rattle.tables.specs.Size.{unit};
ghost use Rattle.judging.specs.Sources.{Settled};

use crate::standing::Standing;

/// An order in which each event of its tables stands, and once: what Order and Termination come to.
#[derive(Drop)]
pub(crate) struct Complete<'a> {
    pub(crate) standing: Standing<'a>,
    ghost settled: { Settled unit (contents standing.tables.now) standing.order.now },
}
