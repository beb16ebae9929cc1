// Waiting rules: which later line of a table must wait for an earlier line's store.
ghost use Rattle.std.specs.Prelude.{◌≡◌, ℕ, Bool, true, not, ◌||◌, ◌==◌, refl};
ghost use Rattle.tables.specs.Lines.{writes};
ghost use Rattle.rules.specs.declared.rule.Rule.{Rule};
ghost use Rattle.rules.specs.Rules.{number_of};
ghost use Rattle.std.proofs.Common.{ap};
ghost use Rattle.rules.specs.Waits.{Waits, mark_of, KeepsWrites};

use tables::line::Line;

/// A waiting rule. It sees kind, cell and barrier number of two lines, and never their operands.
pub trait WaitRule {
    /// The number by which a record names the rule.
    const NUMBER: u32;

    ghost NUMBER: { ℕ };

    ghost waits: { Waits };

    /// Whether the later line must wait for the earlier line's store.
    fn must_wait(&self, earlier: &Line, later: &Line) -> bool
        ensures { result ≡ waits (mark_of earlier.now) (mark_of later.now) };

    ghost ordered: { KeepsWrites waits };
}

/// The strong rule: a line waits for every earlier store.
#[derive(Clone, Copy)]
pub struct Strong;

impl WaitRule for Strong {
    const NUMBER: u32 = 1;

    ghost NUMBER = { number_of Rule.Strong };

    ghost waits = { λ _ _. true };

    ghost ordered = { λ _ _ _ _ _. refl };

    fn must_wait(&self, _earlier: &Line, _later: &Line) -> bool {
        true
    }
}

/// Total store order: a line waits if it writes, or if a barrier stands between the two.
#[derive(Clone, Copy)]
pub struct TotalStoreOrder;

impl WaitRule for TotalStoreOrder {
    const NUMBER: u32 = 2;

    ghost NUMBER = { number_of Rule.TotalStoreOrder };

    ghost waits = { λ p q. writes q.kind || not (p.barrier == q.barrier) };

    ghost ordered = { λ p q _ later_writes _. ap (λ (b : Bool). b || not (p.barrier == q.barrier)) later_writes };

    fn must_wait(&self, earlier: &Line, later: &Line) -> bool {
        later.access.kind().writes() || earlier.barrier != later.barrier
    }
}
