// Reads a record, judges it, and tells of each read.
ghost use Rattle.std.specs.Prelude.{◌≡◌, ℕ, ◌<◌, ◌≤◌, true, false, length, IfOk, vec_capacity, MatchOption};
ghost use Rattle.tables.specs.Size.{unit};
ghost use Rattle.tables.specs.Contents.{contents};
ghost use Rattle.tables.specs.View.{reads_at, copy_at};
ghost use Rattle.rules.specs.Waits.{Waits};
ghost use Rattle.answers.specs.Ruling.{waits_of};
ghost use Rattle.model.specs.Program.{program};
ghost use Rattle.judging.specs.Case.{case, Answered};
ghost use Rattle.judging.specs.Outcomes.{IfPassed, rows_of, order_of};
ghost use Rattle.answers.specs.Accounts.{number_words, AccountOf, AllAccounts, AnswersTo, AnswersBytes};

use crate::text::{Account, Answer};
use faults::Fault;
use judging::passing::Passing;
use judging::proposal::Proposal;
use model::verdict::Verdict;
use record::read;
use rules::rule::Rule;
use rules::sheet::Sheet;
use rules::wait::{Strong, TotalStoreOrder};
use rules::words::NumberWords;
use std::alloc::{AllocError, Global};
use tables::draft::Draft;
use tables::line_id::LineId;
use tables::tables::Tables;
use tables::{EVENTS, PLACES};

/// The answer to a record: its order judged with number words under the rule that it names, and told of each read if it
/// passes. Only want of memory, before anything is read, is no answer.
pub fn answer(heap: Global, bytes: &[u8]) -> Result<Answer, AllocError>
    ensures { IfOk result (λ a. AnswersBytes bytes.now a) }
{
    let draft = Draft::new(heap)?;
    let accounts = Vec::with_capacity(heap, PLACES)?;
    let mut words = [0; PLACES];
    let mut codes = [0; EVENTS];
    let mut sheet = Sheet::over(&mut words);
    match read(draft, bytes, &mut sheet, &mut codes) {
        Err(fault) => Ok(Answer::Refused(fault)),
        // A count beside the codes, since `read` takes a slice of any length and tells how much of it the order is.
        Ok(contents) => Ok(answered(
            contents.rule,
            contents.draft.tables(),
            &codes[..contents.count],
            &mut sheet,
            accounts,
        )),
    }
}

// The answer to an order under the rule that a record names. Apart from reading, so that a refused record makes no room for traces.
fn answered(
    rule: Rule,
    tables: &Tables,
    order: &[u32],
    sheet: &mut Sheet<u32>,
    accounts: Vec<Account>,
) -> Answer
    requires { 128 ≤ vec_capacity accounts }
    ensures { AnswersTo (waits_of rule) (contents tables.now) order.now sheet.old.places.now result }
{
    match judged_by(rule, tables, order, sheet) {
        Err(fault) => Answer::Refused(fault),
        Ok(Err(breach)) => Answer::Broken(breach),
        Ok(Ok(passing)) => Answer::Passes(told(&passing, accounts)),
    }
}

// What the judge says of an order under the rule that a record names.
fn judged_by<'a>(
    rule: Rule,
    tables: &'a Tables,
    order: &'a [u32],
    sheet: &mut Sheet<u32>,
) -> Result<Verdict<Passing<'a>>, Fault>
    ensures answer { Answered (case (waits_of rule) number_words (contents tables.now) order.now sheet.old.places.now) (length sheet.old.places.now) result }
    ensures passed { IfPassed result (λ p. (rows_of p ≡ contents tables.now) × (order_of p ≡ order.now)) }
    ensures same { sheet.new ≡ sheet.old }
{
    let kind = &NumberWords;
    // Two arms, since each rule is a type.
    match rule {
        Rule::Strong => Proposal {
            tables,
            rule: &Strong,
            kind,
            order,
        }
        .pass(sheet),
        Rule::TotalStoreOrder => Proposal {
            tables,
            rule: &TotalStoreOrder,
            kind,
            order,
        }
        .pass(sheet),
    }
}

// An account of each read, in table order.
fn told(passing: &Passing, mut accounts: Vec<Account>) -> Vec<Account>
    requires { 128 ≤ vec_capacity accounts }
    ensures { (w : Waits) → AllAccounts w (rows_of passing.now) (order_of passing.now) result.items }
{
    accounts.clear();
    // No `extend`, which may ask for memory and so may fail.
    for place in 0..PLACES {
        if let Some(account) = told_of(passing, place) {
            accounts.push_reserved(account);
        }
    }
    accounts
}

// The account of the read of the line at a place, if it reads.
fn told_of(passing: &Passing, place: usize) -> Option<Account>
    requires { place < 128 }
    ensures { MatchOption result (reads_at unit (rows_of passing.now) place ≡ false)
        (λ a. (reads_at unit (rows_of passing.now) place ≡ true)
        × ((w : Waits) → AccountOf (program unit w (rows_of passing.now)) (copy_at unit (rows_of passing.now)) (order_of passing.now) place a)) }
{
    let source = passing.source(place)?;
    let trace = passing.trace(place)?;
    Some(Account {
        at: LineId::at(place).unwrap(),
        source,
        end: trace.end,
    })
}
