// What a finished machine leaves.
ghost use Rattle.std.specs.Prelude.{◌≤◌};
ghost use Rattle.arrayvec.specs.ArrayVec.{array_vec_len};

use arrayvec::ArrayVec;
use tables::EVENTS;
use tables::tables::Tables;

/// The codes of the order written, and the issued lines as tables.
#[derive(Drop)]
pub struct Ended {
    pub(crate) order: ArrayVec<u32, EVENTS>,
    pub(crate) tables: Tables,
    ghost within: { array_vec_len order ≤ 256 },
}

impl Ended {
    ghost use Rattle.std.specs.Prelude.{◌≡◌, ◌≤◌, length};
    ghost use Rattle.tables.specs.Size.{unit};
    ghost use Rattle.tables.specs.Contents.{contents};
    ghost use Rattle.tables.specs.View.{Good};
    ghost use Rattle.machine.specs.Endings.{order_of};

    /// The codes of the order, first to last; there are at most 256.
    pub fn order(&self) -> &[u32]
        ensures value { result.now ≡ order_of self.now }
        ensures fits { length result.now ≤ 256 }
    {
        self.order.as_slice()
    }

    /// The issued lines, which are the tables of the order.
    pub fn tables(&self) -> &Tables
        ensures same { result.now ≡ self.now.tables }
        ensures good { Good unit (contents result.now) }
    {
        &self.tables
    }
}
