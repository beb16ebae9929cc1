// The lowest pair that a search by rows finds.
ghost use Rattle.std.specs.Prelude.{ℕ, ◌<◌};
ghost use Rattle.judging.specs.Searches.{FirstRow};

use tables::EVENTS;

// The first event whose row gives a second, with that one.
pub(crate) fn lowest_pair<F: Fn(usize) -> Option<usize>>(row: F) -> Option<(usize, usize)>
    requires { (e : ℕ) → e < 256 → F.pre row e }
    ensures { FirstRow (F.post row) 256 result }
{
    // A loop, since what `find_map` asks of and tells about a closure that calls `row` was not proved.
    for e in 0..EVENTS {
        if let Some(f) = row(e) {
            return Some((e, f));
        }
    }
    None
}
