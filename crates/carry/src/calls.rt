ghost use Rattle.std.specs.Prelude.{◌≡◌, ◌≤◌, [], length};
ghost use Rattle.entry.specs.Refusals.{told};
ghost use Rattle.ledger.specs.Ledgers.{ledger, after};
ghost use Rattle.ledger.specs.Ledgers as ledgers;
ghost use Rattle.sheet.specs.Sheets.{text_of, place_of};
ghost use Rattle.carry.specs.AnswerLists.{AnswersCall, WorksCalls};
ghost use Rattle.carry.specs.Replies.{IsReply, IsVerdict};

use crate::fault::CarryFault;
use crate::list::AnswerList;
use answers::answer::Answer;
use entry::refusal::Refusal;
use entry::traits::Entry;
use ledger::book::Book;
use ledger::call::Call;
use ledger::days::{grant, strike};
use settlement::settle;
use settlement::verdict::Verdict;
use sheet::sheet::Sheet;

// Works the calls of a sheet one after another, from an empty book on.
pub(crate) fn work_calls<E: Entry>(
    entries: &mut [E],
    mut sheet: Sheet<'_>,
    answers: &mut AnswerList<'_>,
) -> Result<(), CarryFault>
    ensures { WorksCalls (text_of sheet.entry) (place_of sheet.entry) (ledger E.Entry entries.old []) answers.old result answers.new }
{
    let mut book = Book::new();
    while let Some(call) = sheet.next_call()? {
        answer(entries, &mut book, call, answers)?;
    }
    Ok(())
}

// Works one call, and writes its answer.
fn answer<E: Entry>(
    entries: &mut [E],
    book: &mut Book,
    call: Call,
    answers: &mut AnswerList<'_>,
) -> Result<(), CarryFault>
    ensures after { ledger E.Entry entries.new book.new ≡ after (ledger E.Entry entries.old book.old) call }
    ensures answer { AnswersCall (ledger E.Entry entries.old book.old) call answers.old result answers.new }
{
    let edited = match call {
        Call::Rule {
            first,
            last,
            least,
            most,
        } => numbered(book.rule(entries, first, last, least, most)),
        Call::Slide { width, least, most } => ranging(book.slide(entries, width, least, most)),
        Call::Withdraw { number } => done(book.withdraw(number)),
        Call::Strike { day, code } => done(strike(entries, day, code)),
        Call::Grant { day, code } => done(grant(entries, day, code)),
        Call::Settle => return answers.add(settled(settle(entries, book).verdict())),
    };
    answers.add(edited)
}

fn numbered(reply: Result<u32, Refusal>) -> Answer<'static>
    ensures { IsReply (told ledgers.numbered reply) result }
{
    match reply {
        Ok(number) => Answer::Rule(number),
        Err(refusal) => Answer::Refused(refusal),
    }
}

fn ranging(reply: Result<Option<(u32, u32)>, Refusal>) -> Answer<'static>
    ensures { IsReply (told ledgers.ranging reply) result }
{
    match reply {
        Ok(numbers) => Answer::Slide(numbers),
        Err(refusal) => Answer::Refused(refusal),
    }
}

fn done(reply: Result<(), Refusal>) -> Answer<'static>
    ensures { IsReply (told (λ _. ledgers.done) reply) result }
{
    match reply {
        Ok(()) => Answer::Done,
        Err(refusal) => Answer::Refused(refusal),
    }
}

fn settled(verdict: &Verdict) -> Answer<'_>
    ensures { IsVerdict verdict.now result }
{
    match verdict {
        Verdict::Agreed(agreement) => Answer::Agreed(agreement),
        Verdict::Blocked(_) => Answer::Blocked,
        Verdict::Refused(refusal) => Answer::Refused(*refusal),
    }
}
