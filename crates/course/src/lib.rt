// A course of calls on one plan.
#![tactic(auto)]

ghost use Rattle.std.specs.Prelude.{◌≡◌};
ghost use Rattle.ledger.specs.Ledgers.{ledger, after, after_all};
ghost use Rattle.settlement.specs.Settlements.{Settles, Meets, plan};
ghost use Rattle.course.specs.Runs.{Starts, Good, Run};

use entry::traits::Entry;
use ledger::book::Book;
use ledger::call::Call;
use ledger::days;
use settlement::settle;
use settlement::settlement::Settlement;

// Works the calls one after another. A refused call changes nothing, and the next follows.
pub fn replay<E: Entry>(entries: &mut [E], book: &mut Book, calls: &[Call])
    ensures run { Run (ledger E.Entry entries.old book.old) calls.now (ledger E.Entry entries.new book.new) }
    ensures good { Starts (ledger E.Entry entries.old book.old) → Good (ledger E.Entry entries.new book.new) }
{
    work_all(entries, book, calls);
}

// Works the calls one after another, and settles the plan that they leave. From an empty book and at most 128 days, each with
// a code, the settlement is never refused, whatever the calls: it is agreed or blocked, and what it says is true of the ledger
// that is worked out from what the entries meant at first and what the calls were given. The settlement borrows entries and
// book from here on; who wants to go on with them afterwards calls `replay` and then `settle`.
pub fn settle_after<'e, 'b, E: Entry>(
    entries: &'e mut [E],
    book: &'b mut Book,
    calls: &[Call],
) -> Settlement<'e, 'b, E>
    ensures plan { plan E.Entry result ≡ after_all (ledger E.Entry entries.old book.old) calls.now }
    ensures settles { Settles (after_all (ledger E.Entry entries.old book.old) calls.now) result.verdict }
    ensures meets { Starts (ledger E.Entry entries.old book.old) → Meets (after_all (ledger E.Entry entries.old book.old) calls.now) result.verdict }
{
    replay(entries, book, calls);
    settle(entries, book)
}

// Each call begins with what the one before it left.
fn work_all<E: Entry>(entries: &mut [E], book: &mut Book, calls: &[Call])
    ensures { ledger E.Entry entries.new book.new ≡ after_all (ledger E.Entry entries.old book.old) calls.now }
{
    for call in calls {
        work(entries, book, *call);
    }
}

// One call. Its answer is dropped: the ledger after it says all that the next call needs.
fn work<E: Entry>(entries: &mut [E], book: &mut Book, call: Call)
    ensures { ledger E.Entry entries.new book.new ≡ after (ledger E.Entry entries.old book.old) call }
{
    match call {
        Call::Rule {
            first,
            last,
            least,
            most,
        } => {
            let _ = book.rule(entries, first, last, least, most);
        }
        Call::Slide { width, least, most } => {
            let _ = book.slide(entries, width, least, most);
        }
        Call::Withdraw { number } => {
            let _ = book.withdraw(number);
        }
        Call::Strike { day, code } => {
            let _ = days::strike(entries, day, code);
        }
        Call::Grant { day, code } => {
            let _ = days::grant(entries, day, code);
        }
        Call::Settle => {}
    }
}
