// How far a line has come.

/// A line waits to be issued, or its write is held, or it is done.
#[derive(Clone, Copy, PartialEq, Eq, Debug)]
pub(crate) enum Mark {
    Waiting,
    Held,
    Done,
}
