//! Writing a number.
ghost use Rattle.std.specs.Prelude.{◌≡◌, ℕ, ◌+◌, ◌<◌, ◌≤◌, List, length, IfOk};
ghost use Rattle.numbers.specs.Number.{bound, encoded, encoded_by, Stands, Number};
ghost use Rattle.numbers.specs.Put.{Put, Writes};

use super::GROUPS;
use faults::Fault;

/// How many bytes a number takes.
pub fn number_size(value: u32) -> usize
    ensures size { result ≡ length (encoded value) }
    ensures some { 0 < result }
    ensures few { result ≤ 5 }
    ensures fewest { (bytes : List ℕ) (at last : ℕ) → Stands 5 bytes at value last → at + result ≤ last + 1 }
{
    groups(value, GROUPS)
}

/// How many groups a number takes that has at most `left`.
fn groups(value: u32, left: u8) -> usize
    requires { (0 < left) × (value < bound left) }
    ensures { (result ≡ length (encoded_by left value)) × ((result ≤ left) × (0 < result)) }
{
    if value < 128 {
        return 1;
    }
    1 + groups(value / 128, left - 1)
}

/// Writes the bytes of `value` at `at` and gives the place after them, or refuses and writes nothing.
pub fn write_number(out: &mut [u8], at: usize, value: u32) -> Result<usize, Fault>
    ensures written { Writes (encoded value) out.old at result out.new }
    ensures stands { IfOk result (λ next. Number out.new at value next) }
{
    let size = number_size(value);
    if at > out.len() || size > out.len() - at {
        return Err(Fault::OutputShort(at.saturating_add(size)));
    }
    Ok(put_number(out, at, value))
}

/// Writes the bytes of `value` at `at`, where the caller has seen that there is room, and gives the place after them.
fn put_number(out: &mut [u8], at: usize, value: u32) -> usize
    requires { at + length (encoded value) ≤ length out.old }
    ensures { Put (encoded value) out.old at result out.new }
{
    put_groups(out, at, value, GROUPS)
}

/// Writes a number that has at most `left` groups. List, place and number change with each group, so they come one by one.
fn put_groups(out: &mut [u8], at: usize, value: u32, left: u8) -> usize
    requires { (at + length (encoded_by left value) ≤ length out.old) × ((0 < left) × (value < bound left)) }
    ensures { Put (encoded_by left value) out.old at result out.new }
{
    if value < 128 {
        out[at] = value as u8;
        return at + 1;
    }
    out[at] = (128 + value % 128) as u8;
    put_groups(out, at + 1, value / 128, left - 1)
}
