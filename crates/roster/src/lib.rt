// A caller's roster held against entries and book.
#![tactic(auto)]

mod assignment;
pub mod finding;
mod stretches;

ghost use Rattle.ledger.specs.Ledgers.{ledger};
ghost use Rattle.roster.specs.Findings.{Checks};

use crate::assignment::Assignment;
use crate::finding::Finding;
use entry::refusal::Refusal;
use entry::traits::Entry;
use ledger::book::Book;
use ledger::days::day_count;

// Finds the first fault of a roster: all days are looked at before any rule, and the rules in the order of their numbers.
pub fn check<'r, E: Entry>(
    entries: &[E],
    book: &Book,
    roster: &'r [u8],
) -> Result<Finding<'r>, Refusal>
    ensures { Checks (ledger E.Entry entries.now book.now) roster.now result }
{
    let days = day_count(entries)?;
    if let Some(number) = book.past_days(days) {
        return Err(Refusal::RulePastDays(number));
    }
    if roster.len() != entries.len() {
        return Err(Refusal::WrongLength);
    }
    let assignment = Assignment {
        entries,
        book,
        roster,
    };
    Ok(assignment.first_fault())
}
