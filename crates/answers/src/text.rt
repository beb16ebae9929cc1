// An answer, and how it is printed.
ghost use Rattle.std.specs.Prelude.{Some};
ghost use Rattle.std.specs.List.{flat_map};
ghost use Rattle.std.specs.Fmt.{WritesOnOk};
ghost use Rattle.answers.specs.Text.{account_text, line_text, answer_text};

use faults::Fault;
use model::verdict::Breach;
use rules::words::Origin;
use std::fmt;
use tables::event::Event;
use tables::line_id::LineId;

/// What is told of the read of a line: the write whose word it should have, if there is one, and the end of its trace.
#[derive(Clone, Copy)]
pub struct Account {
    pub at: LineId,
    pub source: Option<Event>,
    pub end: Origin,
}

/// The answer to a record: it is refused, its order breaks an axiom, or it passes, with its reads in table order.
// Not a result in a result, since it has a `Display` of its own.
#[derive(Drop)]
pub enum Answer {
    Refused(Fault),
    Broken(Breach),
    Passes(Vec<Account>),
}

/// Line, source and end of the trace, as `2.2 from 1.1w by 1.1`.
impl fmt::Display for Account {
    ghost output = { λ a. Some (account_text a) };

    fn fmt<W: fmt::Write>(&self, f: &mut fmt::Formatter<W>) -> fmt::Result {
        let Account { at, source, end } = self;
        match source {
            Some(write) => write!(f, "{at} from {write} by {end}"),
            None => write!(f, "{at} from start by {end}"),
        }
    }
}

// A line for each read. A loop, since with `try_for_each` the proof of what is written to `f` did not close.
fn show_all<W: fmt::Write>(accounts: &[Account], f: &mut fmt::Formatter<W>) -> fmt::Result
    ensures { WritesOnOk W.Write.write_str_gives f.old result (flat_map line_text accounts.now) f.new }
{
    for account in accounts {
        writeln!(f, "{account}")?;
    }
    Ok(())
}

/// All lines of the answer, each with a newline at its end.
impl fmt::Display for Answer {
    ghost output = { λ a. Some (answer_text a) };

    fn fmt<W: fmt::Write>(&self, f: &mut fmt::Formatter<W>) -> fmt::Result {
        match self {
            Answer::Refused(fault) => writeln!(f, "refused {fault}"),
            Answer::Broken(breach) => writeln!(f, "{breach}"),
            Answer::Passes(accounts) => {
                writeln!(f, "passes")?;
                show_all(accounts, f)
            }
        }
    }
}
