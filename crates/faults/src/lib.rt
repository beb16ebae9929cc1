//! What is refused: one fault type for every layer, with its number, layer and place.
#![tactic(auto)]

ghost use Rattle.std.specs.Prelude.{◌≡◌, Some};
ghost use Rattle.faults.specs.Faults.{number_of, layer_of, place_of};
ghost use Rattle.faults.specs.Text.{layer_text, fault_text};

use std::error::Error;
use std::fmt;

/// The layer in which a fault arises.
#[derive(Clone, Copy, PartialEq, Eq, Debug)]
pub enum Layer {
    Record,
    Number,
    Table,
    Order,
    Call,
    Machine,
}

/// A refusal. The number that most cases hold is its place.
#[derive(Clone, Copy, PartialEq, Eq, Debug)]
pub enum Fault {
    /// The record has more bytes than the limit, which is the place.
    RecordTooLong(usize),
    /// The record does not begin with the mark.
    MarkMissing,
    /// The record or section ends before or inside a due number.
    NumberEnds(usize),
    /// A number has more than 32 bits, or a last group of no use.
    NumberMalformed(usize),
    /// No waiting rule has this number.
    RuleUnknown(usize),
    /// A section's length is beyond the bytes that are left.
    LengthBeyond(usize),
    /// No table entry has this code.
    EntryUnknown(usize),
    /// The cell is above the last one.
    CellBeyond(usize),
    /// The copied line is no earlier line that reads.
    CopyAmiss(usize),
    /// An event code above the last one, or one event too many.
    EventBeyond(usize),
    /// Bytes follow the order.
    BytesLeft(usize),
    /// There is no such processor.
    ProcessorUnknown,
    /// The table has no such line.
    LineUnknown(usize),
    /// The sheet has too few places; the place is their number.
    SheetShort(usize),
    /// The traced line reads nothing.
    NothingRead(usize),
    /// The output is too short; the place is the length needed.
    OutputShort(usize),
    /// The order has an event that the tables lack, at this position.
    EventLacking(usize),
    /// The table has no room for another line, or another barrier.
    TableFull(usize),
    /// The processor has no line left to issue.
    NoLineLeft(usize),
    /// The next line reads, and must wait for this held line.
    IssueWaits(usize),
    /// A swap is half done; the place is its read's code.
    SwapHalfDone(usize),
    /// The line's write is not held.
    NotHeld(usize),
    /// The line must wait for this earlier held line.
    DrainWaits(usize),
}

// Three facts of one fault, asked for by name: a conversion to a number would not say which.
impl Fault {
    /// The number by which the fault is known.
    pub fn number(self) -> u32
        ensures { result ≡ number_of self }
    {
        match self {
            Fault::RecordTooLong(_) => 1,
            Fault::MarkMissing => 2,
            Fault::NumberEnds(_) => 3,
            Fault::NumberMalformed(_) => 4,
            Fault::RuleUnknown(_) => 5,
            Fault::LengthBeyond(_) => 6,
            Fault::EntryUnknown(_) => 7,
            Fault::CellBeyond(_) => 8,
            Fault::CopyAmiss(_) => 9,
            Fault::EventBeyond(_) => 10,
            Fault::BytesLeft(_) => 11,
            Fault::ProcessorUnknown => 12,
            Fault::LineUnknown(_) => 13,
            Fault::SheetShort(_) => 14,
            Fault::NothingRead(_) => 15,
            Fault::OutputShort(_) => 16,
            Fault::EventLacking(_) => 17,
            Fault::TableFull(_) => 21,
            Fault::NoLineLeft(_) => 22,
            Fault::IssueWaits(_) => 23,
            Fault::SwapHalfDone(_) => 24,
            Fault::NotHeld(_) => 25,
            Fault::DrainWaits(_) => 26,
        }
    }

    /// The layer in which it arises.
    pub fn layer(self) -> Layer
        ensures { result ≡ layer_of self }
    {
        match self {
            Fault::RecordTooLong(_)
            | Fault::MarkMissing
            | Fault::RuleUnknown(_)
            | Fault::LengthBeyond(_)
            | Fault::BytesLeft(_) => Layer::Record,
            Fault::NumberEnds(_) | Fault::NumberMalformed(_) => Layer::Number,
            Fault::EntryUnknown(_)
            | Fault::CellBeyond(_)
            | Fault::CopyAmiss(_)
            | Fault::TableFull(_) => Layer::Table,
            Fault::EventBeyond(_) | Fault::EventLacking(_) => Layer::Order,
            Fault::ProcessorUnknown
            | Fault::LineUnknown(_)
            | Fault::SheetShort(_)
            | Fault::NothingRead(_)
            | Fault::OutputShort(_) => Layer::Call,
            Fault::NoLineLeft(_)
            | Fault::IssueWaits(_)
            | Fault::SwapHalfDone(_)
            | Fault::NotHeld(_)
            | Fault::DrainWaits(_) => Layer::Machine,
        }
    }

    // No option: a place is printed for every fault, and is 0 for the two that can arise in one place only.
    /// Where it arises.
    pub fn place(self) -> usize
        ensures { result ≡ place_of self }
    {
        match self {
            Fault::MarkMissing | Fault::ProcessorUnknown => 0,
            Fault::RecordTooLong(at)
            | Fault::NumberEnds(at)
            | Fault::NumberMalformed(at)
            | Fault::RuleUnknown(at)
            | Fault::LengthBeyond(at)
            | Fault::EntryUnknown(at)
            | Fault::CellBeyond(at)
            | Fault::CopyAmiss(at)
            | Fault::EventBeyond(at)
            | Fault::BytesLeft(at)
            | Fault::LineUnknown(at)
            | Fault::SheetShort(at)
            | Fault::NothingRead(at)
            | Fault::OutputShort(at)
            | Fault::EventLacking(at)
            | Fault::TableFull(at)
            | Fault::NoLineLeft(at)
            | Fault::IssueWaits(at)
            | Fault::SwapHalfDone(at)
            | Fault::NotHeld(at)
            | Fault::DrainWaits(at) => at,
        }
    }
}

impl fmt::Display for Layer {
    ghost output = { λ l. Some (layer_text l) };

    fn fmt<W: fmt::Write>(&self, f: &mut fmt::Formatter<W>) -> fmt::Result {
        f.write_str(match self {
            Layer::Record => "record",
            Layer::Number => "number",
            Layer::Table => "table",
            Layer::Order => "order",
            Layer::Call => "call",
            Layer::Machine => "machine",
        })
    }
}

/// Number, layer and place, as they are printed.
impl fmt::Display for Fault {
    ghost output = { λ e. Some (fault_text e) };

    fn fmt<W: fmt::Write>(&self, f: &mut fmt::Formatter<W>) -> fmt::Result {
        write!(f, "{} {} {}", self.number(), self.layer(), self.place())
    }
}

impl Error for Fault {}
