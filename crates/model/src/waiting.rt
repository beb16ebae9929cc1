// Which line of some tables waits for which.
ghost use Rattle.std.specs.Prelude.{◌≡◌};
ghost use Rattle.tables.specs.Size.{unit};
ghost use Rattle.tables.specs.Contents.{contents};
ghost use Rattle.tables.specs.View.{line_at};
ghost use Rattle.rules.specs.Waits.{waits_at};

use rules::wait::WaitRule;
use tables::tables::Tables;

/// Whether the line at the later place must wait for the store of the line at the earlier one. No line waits where there is none.
pub fn waits<R: WaitRule>(tables: &Tables, rule: &R, earlier: usize, later: usize) -> bool
    ensures { result ≡ waits_at R.WaitRule.waits (line_at unit (contents tables.now) earlier) (line_at unit (contents tables.now) later) }
{
    match (tables.line_at(earlier), tables.line_at(later)) {
        (Some(earlier), Some(later)) => rule.must_wait(&earlier, &later),
        _ => false,
    }
}
