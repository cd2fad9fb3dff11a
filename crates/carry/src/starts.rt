ghost use Rattle.std.specs.Prelude.{◌≡◌, ℕ, ◌≤◌, List, [], length, take};
ghost use Rattle.entry.specs.Refusals.{told};
ghost use Rattle.kinds.specs.Duties.{duties, duty_of};
ghost use Rattle.kinds.specs.Collections.{collected, collection_of};
ghost use Rattle.sheet.specs.CodeLists.{Lists};
ghost use Rattle.sheet.specs.Sheets.{text_of, place_of};
ghost use Rattle.ledger.specs.Ledgers.{ledger};
ghost use Rattle.carry.specs.AnswerLists.{BeginsPlan, WorksText, WorksCalls};

use crate::calls::work_calls;
use crate::fault::CarryFault;
use crate::list::AnswerList;
use answers::answer::Answer;
use entry::refusal::Refusal;
use entry::traits::Entry;
use kinds::boxes::Boxes;
use kinds::collection::Collection;
use kinds::duty::Duty;
use ledger::days::DAYS;
use sheet::code_list::CodeList;
use sheet::sheet::Sheet;
use sheet::start::Start;

// Works a text. Its first line says the kind, and the work on the others is the same for each.
pub(crate) fn work(text: &[u8], answers: &mut AnswerList<'_>) -> Result<(), CarryFault>
    ensures { WorksText text.now answers.old result answers.new }
{
    let (start, sheet) = Sheet::open(text)?;
    match start {
        Start::Duty { days, codes } => {
            let entry = begin(days, duty(codes), Answer::Duty(days), answers)?;
            work_days(&mut [entry; DAYS], days, sheet, answers)
        }
        Start::Collection {
            days,
            codes,
            counts,
        } => {
            let entry = collection(codes, counts);
            let entry = begin(days, entry, Answer::Collection(days), answers)?;
            work_days(&mut [entry; DAYS], days, sheet, answers)
        }
        Start::Boxes { days, low, high } => {
            let entry = begin(days, Boxes::new(low, high), Answer::Boxes(days), answers)?;
            work_days(&mut [entry; DAYS], days, sheet, answers)
        }
    }
}

// Answers the first line. Too many days are refused before the entry is looked at.
fn begin<E: Entry>(
    days: u32,
    entry: Result<E, Refusal>,
    answer: Answer<'_>,
    answers: &mut AnswerList<'_>,
) -> Result<E, CarryFault>
    ensures { BeginsPlan E.Entry days entry answer.entry answers.old result answers.new }
{
    if days as usize > DAYS {
        return Err(CarryFault::Refused(Refusal::TooManyDays));
    }
    match entry {
        Err(refusal) => Err(CarryFault::Refused(refusal)),
        Ok(entry) => {
            answers.add(answer)?;
            Ok(entry)
        }
    }
}

// Works the calls behind the first line on the entries of so many days.
fn work_days<E: Entry>(
    entries: &mut [E; DAYS],
    days: u32,
    sheet: Sheet<'_>,
    answers: &mut AnswerList<'_>,
) -> Result<(), CarryFault>
    requires { days ≤ 128 }
    ensures { WorksCalls (text_of sheet.entry) (place_of sheet.entry) (ledger E.Entry (take days entries.old) []) answers.old result answers.new }
{
    work_calls(&mut entries[..days as usize], sheet, answers)
}

#[tactic(auto, using(crate::proofs::StartFacts::duty_known))]
fn duty(codes: CodeList) -> Result<Duty, Refusal>
    ensures { (held : List ℕ) → Lists codes held → told duties result ≡ duty_of held }
{
    if codes.goes_above {
        return Err(Refusal::UnknownCode);
    }
    Duty::from_set(codes.codes)
}

#[tactic(auto, using(crate::proofs::StartFacts::collection_known))]
fn collection(codes: CodeList, counts: CodeList) -> Result<Collection, Refusal>
    ensures { (held counted : List ℕ) → Lists codes held → Lists counts counted → told collected result ≡ collection_of held counted }
{
    if codes.goes_above || counts.goes_above {
        return Err(Refusal::UnknownCode);
    }
    Ok(Collection::from_sets(codes.codes, counts.codes))
}
