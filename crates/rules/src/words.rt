// Kinds of word: what a word means, and when two words are the same.
ghost use Rattle.std.specs.Prelude.{◌≡◌, ℕ, Some, Decides};
ghost use Rattle.rules.specs.declared.words.Origin.{Origin};
ghost use Rattle.rules.specs.Text.{origin_text};

use std::fmt;
use tables::line_id::LineId;

/// A kind of word. Words are the same exactly when their meanings are equal.
pub trait WordKind {
    type Word: Copy;

    // What a word may mean, and what each word means.
    ghost Meaning: { Type 0 };

    ghost meaning: { Self.Word → Meaning };

    // What a cell's start word means, and the word for a number written at a processor and line.
    ghost starts: { ℕ → Meaning };

    ghost writtens: { ℕ → ℕ → ℕ → Meaning };

    /// The word that a cell starts with.
    fn start(&self, cell: u8) -> Self::Word
        ensures { meaning result ≡ starts cell };

    /// The word for a number that a line writes.
    fn written(&self, number: u32, line: LineId) -> Self::Word
        ensures { meaning result ≡ writtens number line.processor line.line };

    /// Whether two words are the same.
    fn same(&self, a: &Self::Word, b: &Self::Word) -> bool
        ensures { Decides result (meaning a.now ≡ meaning b.now) };
}

/// Words that are the numbers themselves; every cell starts with 0.
#[derive(Clone, Copy)]
pub struct NumberWords;

impl WordKind for NumberWords {
    type Word = u32;

    ghost Meaning = { ℕ };

    ghost meaning = { λ w. w };

    ghost starts = { λ _. 0 };

    ghost writtens = { λ n _ _. n };

    fn start(&self, _cell: u8) -> u32 {
        0
    }

    fn written(&self, number: u32, _line: LineId) -> u32 {
        number
    }

    fn same(&self, a: &u32, b: &u32) -> bool {
        *a == *b
    }
}

/// Where a word comes from: a cell's start, or the line that wrote it.
#[derive(Clone, Copy, PartialEq, Eq, Debug)]
pub enum Origin {
    Start(u8),
    Line(LineId),
}

/// The line, as `2.1`, or `start`.
impl fmt::Display for Origin {
    ghost output = { λ o. Some (origin_text o) };

    fn fmt<W: fmt::Write>(&self, f: &mut fmt::Formatter<W>) -> fmt::Result {
        match self {
            Origin::Start(_) => f.write_str("start"),
            Origin::Line(line) => write!(f, "{line}"),
        }
    }
}

/// Words that say where they come from; a copy keeps its origin.
#[derive(Clone, Copy)]
pub struct OriginWords;

impl WordKind for OriginWords {
    type Word = Origin;

    ghost Meaning = { Origin };

    ghost meaning = { λ w. w };

    ghost starts = { λ c. Origin.Start c };

    ghost writtens = { λ _ p l. Origin.Line (record { processor = p; line = l }) };

    fn start(&self, cell: u8) -> Origin {
        Origin::Start(cell)
    }

    fn written(&self, _number: u32, line: LineId) -> Origin {
        Origin::Line(line)
    }

    fn same(&self, a: &Origin, b: &Origin) -> bool {
        a == b
    }
}
