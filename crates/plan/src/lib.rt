// The limits of a plan, taken from its entries and its book.
#![tactic(auto)]

mod building;
mod empty;

ghost use Rattle.std.specs.Prelude.{◌≡◌, IfOk};
ghost use Rattle.entry.specs.Refusals.{told};
ghost use Rattle.ledger.specs.declared.call.Call.TheVariants.{Settle};
ghost use Rattle.ledger.specs.Ledgers.{ledger, settled, reply};
ghost use Rattle.ledger.specs.Rules.{Bounds};
ghost use Rattle.plan.specs.Tables.{Represents};

use crate::building::{add_rules, of_days};
use crate::empty::first_empty;
use entry::refusal::Refusal;
use entry::traits::Entry;
use ledger::book::Book;
use ledger::days::day_count;
use limits::system::System;

// The system of the plan's days and of its rules in force, where the plan can be settled. The bounds hold of every book: they
// are told here because settling needs them.
pub fn system_of<E: Entry>(entries: &[E], book: &Book) -> Result<System, Refusal>
    ensures answer { told (λ _. settled) result ≡ reply (ledger E.Entry entries.now book.now) Settle }
    ensures system { IfOk result (Represents (ledger E.Entry entries.now book.now)) }
    ensures bounds { IfOk result (λ _. Bounds book.now) }
{
    let days = day_count(entries)?;
    if let Some(day) = first_empty(entries) {
        return Err(Refusal::EmptyDay(day));
    }
    if let Some(number) = book.past_days(days) {
        return Err(Refusal::RulePastDays(number));
    }
    let mut system = of_days(entries);
    add_rules(&mut system, book);
    Ok(system)
}
