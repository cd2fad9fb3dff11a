// Settling a plan: a verdict that is true of it, and questions to that verdict.
#![tactic(auto)]

mod choices;
mod lists;
pub mod settlement;
pub mod verdict;

ghost use Rattle.std.specs.Prelude.{◌≡◌};
ghost use Rattle.ledger.specs.Ledgers.{ledger};
ghost use Rattle.settlement.specs.Settlements.{Settles, plan};

use crate::choices::agreement;
use crate::settlement::Settlement;
use crate::verdict::Verdict;
use chains::judge;
use closure::Closure;
use entry::traits::Entry;
use ledger::book::Book;
use plan::system_of;

// Finds whether a lawful roster exists, and what each day may then have. The settlement borrows entries and book, so that
// neither can be edited while it is asked.
pub fn settle<'e, 'b, E: Entry>(entries: &'e [E], book: &'b Book) -> Settlement<'e, 'b, E>
    ensures plan { plan E.Entry result ≡ ledger E.Entry entries.now book.now }
    ensures settles { Settles (ledger E.Entry entries.now book.now) result.verdict }
{
    Settlement {
        entries,
        book,
        verdict: verdict_of(entries, book),
    }
}

fn verdict_of<E: Entry>(entries: &[E], book: &Book) -> Verdict
    ensures { Settles (ledger E.Entry entries.now book.now) result }
{
    match system_of(entries, book) {
        Err(refusal) => Verdict::Refused(refusal),
        Ok(system) => match judge(&system) {
            Err(chain) => Verdict::Blocked(chain),
            Ok(agreed) => Verdict::Agreed(agreement(entries, &Closure::of(&agreed))),
        },
    }
}
