// The waiting rules by their numbers.
ghost use Rattle.std.specs.Prelude.{◌≡◌, ◌++◌, Some, codes, decimal};
ghost use Rattle.rules.specs.Rules.{number_of, NamesRule};

use crate::wait::{Strong, TotalStoreOrder, WaitRule};
use std::error::Error;
use std::fmt;

/// One of the waiting rules.
#[derive(Clone, Copy, PartialEq, Eq, Debug)]
pub enum Rule {
    Strong,
    TotalStoreOrder,
}

/// A number that no rule carries.
#[derive(Clone, Copy, PartialEq, Eq, Debug)]
pub struct UnknownRule(pub u32);

/// The rule that carries a number.
impl TryFrom<u32> for Rule {
    type Error = UnknownRule;

    ghost try_from_gives = { NamesRule };

    fn try_from(number: u32) -> Result<Rule, UnknownRule> {
        match number {
            Strong::NUMBER => Ok(Rule::Strong),
            TotalStoreOrder::NUMBER => Ok(Rule::TotalStoreOrder),
            _ => Err(UnknownRule(number)),
        }
    }
}

impl fmt::Display for UnknownRule {
    ghost output = { λ e. Some (codes "no rule has the number " ++ decimal (e.0)) };

    fn fmt<W: fmt::Write>(&self, f: &mut fmt::Formatter<W>) -> fmt::Result {
        write!(f, "no rule has the number {}", self.0)
    }
}

impl Error for UnknownRule {}

/// The number that a rule carries.
impl From<Rule> for u32 {
    ghost from_gives = { λ rule number. number ≡ number_of rule };

    fn from(rule: Rule) -> u32 {
        match rule {
            Rule::Strong => Strong::NUMBER,
            Rule::TotalStoreOrder => TotalStoreOrder::NUMBER,
        }
    }
}
