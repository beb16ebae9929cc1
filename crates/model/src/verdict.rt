// The six axioms by name, and what a verdict tells.
ghost use Rattle.std.specs.Prelude.{◌≡◌, Some};
ghost use Rattle.model.specs.Verdicts.{number_of};
ghost use Rattle.model.specs.Text.{axiom_text, breach_text, verdict_text};

use std::fmt;
use tables::event::Event;

/// The six axioms, lowest first.
#[derive(Clone, Copy, PartialEq, Eq, Debug)]
pub enum Axiom {
    Order = 1,
    Termination = 2,
    LoadOp = 3,
    Wait = 4,
    Atomicity = 5,
    Value = 6,
}

impl Axiom {
    /// The axiom's number: the lowest broken one is named.
    pub fn number(self) -> u32
        ensures { result ≡ number_of self }
    {
        self as u32
    }
}

/// The lowest axiom that an order breaks, with one or two events.
#[derive(Clone, Copy, PartialEq, Eq, Debug)]
pub struct Breach {
    pub axiom: Axiom,
    pub first: Event,
    pub second: Option<Event>,
}

/// What the judge says of an order: it passes, with what was asked of it, or it breaks an axiom.
pub type Verdict<T = ()> = Result<T, Breach>;

impl fmt::Display for Axiom {
    ghost output = { λ a. Some (axiom_text a) };

    fn fmt<W: fmt::Write>(&self, f: &mut fmt::Formatter<W>) -> fmt::Result {
        f.write_str(match self {
            Axiom::Order => "Order",
            Axiom::Termination => "Termination",
            Axiom::LoadOp => "LoadOp",
            Axiom::Wait => "Wait",
            Axiom::Atomicity => "Atomicity",
            Axiom::Value => "Value",
        })
    }
}

/// `broken` with the axiom and its events, a dash for an absent one.
impl fmt::Display for Breach {
    ghost output = { λ b. Some (breach_text b) };

    fn fmt<W: fmt::Write>(&self, f: &mut fmt::Formatter<W>) -> fmt::Result {
        match self.second {
            Some(second) => write!(f, "broken {} {} {second}", self.axiom, self.first),
            None => write!(f, "broken {} {} -", self.axiom, self.first),
        }
    }
}

// A type of its own, since a crate may not write std's `Display` for std's `Result`.
/// A verdict as it is printed.
#[derive_where(Clone, Copy)]
pub struct Shown<'a, T>(pub &'a Verdict<T>);

/// `passes`, or the breach.
impl<T> fmt::Display for Shown<'_, T> {
    ghost output = { λ s. Some (verdict_text s.0.now) };

    fn fmt<W: fmt::Write>(&self, f: &mut fmt::Formatter<W>) -> fmt::Result {
        match self.0 {
            Ok(_) => f.write_str("passes"),
            Err(breach) => write!(f, "{breach}"),
        }
    }
}
