// Sections: a length, and then so many bytes of the record itself.
ghost use Rattle.std.specs.Prelude.{◌≡◌, ℕ, ◌+◌, ◌<◌, ◌≤◌, length, MatchResult};
ghost use Rattle.numbers.specs.Number.{Number};
ghost use Rattle.numbers.specs.Amiss.{capped, NoNumber};
ghost use Rattle.record.specs.Section.{SectionAt, NoSection};

use faults::Fault;
use numbers::read_number;

/// A part of a record, and the place in the record where it begins.
#[derive(Clone, Copy)]
pub struct Part<'a> {
    pub bytes: &'a [u8],
    pub start: usize,
}

// The place is handed along beside the part: a reader that kept both would need a clause in each method, that its part stays.
impl Part<'_> {
    // The number at `at`, which moves to the place after it.
    pub(crate) fn number(self, at: &mut usize) -> Result<u32, Fault>
        ensures { MatchResult result
            (λ v. Number self.entry.bytes.now at.old v at.new)
            (λ e. NoNumber self.entry.bytes.now self.entry.start at.old e) }
    {
        let (number, next) = read_number(self.bytes, self.start, *at)?;
        *at = next;
        Ok(number)
    }

    // A place of the part as a fault tells it: by its place in the record.
    pub(crate) fn place(self, at: usize) -> usize
        ensures { result ≡ capped (self.entry.start + at) }
    {
        self.start.saturating_add(at)
    }
}

/// The section whose length stands at `at`, and the place after it.
pub fn section<'a>(bytes: &'a [u8], at: usize) -> Result<(Part<'a>, usize), Fault>
    ensures { MatchResult result
        (λ p. SectionAt bytes.now at p.0.bytes.now p.0.start p.1)
        (λ e. NoSection bytes.now at e) }
{
    let (size, start) = read_number(bytes, 0, at)?;
    let size = size as usize;
    if size > bytes.len() - start {
        return Err(Fault::LengthBeyond(at));
    }
    let next = start + size;
    let part = Part {
        bytes: &bytes[start..next],
        start,
    };
    Ok((part, next))
}
