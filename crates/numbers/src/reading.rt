//! Reading a number.
ghost use Rattle.std.specs.Prelude.{◌≡◌, ℕ, ◌+◌, ◌^◌, ◌<◌, ◌≤◌, ◌⊎◌, List, ◌++◌, length, drop, Ok, Err, MatchResult};
ghost use Rattle.faults.specs.declared.Fault.TheVariants.{NumberEnds, NumberMalformed};
ghost use Rattle.numbers.specs.Number.{Stands, encoded};
ghost use Rattle.numbers.specs.Amiss.{capped, Cut, Wide, Spoilt, Reads};

use super::GROUPS;
use faults::Fault;

/// The number at `at` of a part that begins at place `base`, and where in the part it ends.
pub fn read_number(bytes: &[u8], base: usize, at: usize) -> Result<(u32, usize), Fault>
    ensures reads { Reads bytes.now base at result }
    ensures whole { (v : ℕ) (rest : List ℕ) → v < 2 ^ 32 → drop at bytes.now ≡ encoded v ++ rest → result ≡ Ok (v, at + length (encoded v)) }
    ensures ends { Cut 5 bytes.now at → result ≡ Err (NumberEnds (capped (base + at))) }
    ensures malformed { Spoilt bytes.now at → result ≡ Err (NumberMalformed (capped (base + at))) }
{
    let place = base.saturating_add(at);
    let (value, last) = read_groups(bytes, at, GROUPS, place)?;
    let top = bytes[last];
    if last > at && top == 0 {
        return Err(Fault::NumberMalformed(place));
    }
    Ok((value, last + 1))
}

/// The number at `at` of at most `left` groups, padded or not, and the index of its last byte.
fn read_groups(bytes: &[u8], at: usize, left: u8, place: usize) -> Result<(u32, usize), Fault>
    requires { (0 < left) × (left ≤ 5) }
    ensures { MatchResult result (λ p. Stands left bytes.now at p.0 p.1) (λ e. ((e ≡ NumberEnds place) × Cut left bytes.now at) ⊎ ((e ≡ NumberMalformed place) × Wide left bytes.now at)) }
{
    let Some(&byte) = bytes.get(at) else {
        return Err(Fault::NumberEnds(place));
    };
    if left == 1 && byte > 15 {
        return Err(Fault::NumberMalformed(place));
    }
    if byte < 128 {
        return Ok((u32::from(byte), at));
    }
    let (high, last) = read_groups(bytes, at + 1, left - 1, place)?;
    Ok((high * 128 + u32::from(byte - 128), last))
}
