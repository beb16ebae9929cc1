// The calls that a machine takes while it runs.

/// A call as its user makes it; processors and lines count from 1.
#[derive(Clone, Copy, PartialEq, Eq, Debug)]
pub enum Call {
    /// The processor's next line is taken.
    Issue(u32),
    /// The held write of a processor's line moves to the end of the order.
    Drain(u32, u32),
}
