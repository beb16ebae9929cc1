// An order that is proposed for some tables.
use tables::tables::Tables;

/// An order of the events of some tables, with the waiting rule and the kind of word to judge it by.
#[derive_where(Clone, Copy)]
pub struct Proposal<'a, 'b, R, K> {
    pub tables: &'a Tables,
    pub order: &'a [u32],
    pub rule: &'b R,
    pub kind: &'b K,
}
