// A line of a table, and what may be added to a table.
ghost use Rattle.std.specs.Prelude.{◌≡◌};
ghost use Rattle.tables.specs.Lines.{kind_of, reads, writes};
ghost use Rattle.tables.specs.View.{operand_of};

/// What a store or a swap writes: a number, or a copy of what an earlier line of its table read (by number, from 1).
#[derive(Clone, Copy, PartialEq, Eq, Debug)]
pub enum Operand {
    Written(u32),
    Copied(u8),
}

/// What a line does to its cell.
#[derive(Clone, Copy, PartialEq, Eq, Debug)]
pub enum Access {
    Load,
    Store(Operand),
    Swap(Operand),
}

/// An access without its operand.
#[derive(Clone, Copy, PartialEq, Eq, Debug)]
pub enum Kind {
    Load,
    Store,
    Swap,
}

/// A line: its access, its cell, and how many barriers of its table stand before it.
#[derive(Clone, Copy, PartialEq, Eq, Debug)]
pub struct Line {
    pub access: Access,
    pub cell: u8,
    pub barrier: u8,
}

/// What may be added to a table: a line with this access to that cell, or a full barrier.
#[derive(Clone, Copy, PartialEq, Eq, Debug)]
pub enum Entry {
    Operation(Access, u8),
    Barrier,
}

impl Access {
    // By name and not by From: it is mostly asked for in passing, where a conversion would have to name its type.
    /// The access without its operand.
    pub fn kind(self) -> Kind
        ensures { result ≡ kind_of self }
    {
        match self {
            Access::Load => Kind::Load,
            Access::Store(_) => Kind::Store,
            Access::Swap(_) => Kind::Swap,
        }
    }

    /// What it writes; a load writes nothing.
    pub fn operand(self) -> Option<Operand>
        ensures { result ≡ operand_of self }
    {
        match self {
            Access::Load => None,
            Access::Store(operand) | Access::Swap(operand) => Some(operand),
        }
    }
}

impl Kind {
    /// Whether such a line reads its cell.
    pub fn reads(self) -> bool
        ensures { result ≡ reads self }
    {
        matches!(self, Kind::Load | Kind::Swap)
    }

    /// Whether such a line writes its cell.
    pub fn writes(self) -> bool
        ensures { result ≡ writes self }
    {
        matches!(self, Kind::Store | Kind::Swap)
    }
}
