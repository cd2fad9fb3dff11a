// Works a sheet line by line, and writes the answer to each line into a list.
#![tactic(auto)]

mod calls;
pub mod fault;
mod list;
mod starts;

ghost use Rattle.std.specs.Prelude.{◌≡◌, ℕ, ◌^◌, ◌<◌, ◌≤◌, List, ◌++◌, length, take, drop};
ghost use Rattle.carry.specs.Carrying.{Carries};
ghost use Rattle.carry.specs.Ends.{End, number};

use crate::fault::CarryFault;
use crate::list::AnswerList;
use crate::starts::work;

// How the work on a sheet ended, and how many bytes of the list are written.
#[derive(Clone, Copy, PartialEq, Eq, Debug)]
pub struct Carried {
    pub ended: Result<(), CarryFault>,
    pub count: usize,
}

impl Carried {
    // The number of the refusal that ended the work, and 0 where all lines are answered.
    pub fn number(self) -> u32
        ensures { result ≡ number self.ended }
    {
        match self.ended {
            Ok(()) => 0,
            Err(fault) => fault.refusal().number(),
        }
    }
}

// Works the lines of a sheet one after another, and writes the answers from the front of the list on.
pub fn carry(sheet: &[u8], answers: &mut [u8]) -> Carried
    ensures answers { Carries sheet.now (length answers.old) (take result.count answers.new) result.ended }
    ensures only { (bytes : List ℕ) (e : End) → Carries sheet.now (length answers.old) bytes e → (bytes ≡ take result.count answers.new) × (e ≡ result.ended) }
    ensures within { result.count ≤ length answers.old }
    ensures few { result.count < 2 ^ 32 }
    ensures beyond { answers.new ≡ take result.count answers.new ++ drop result.count answers.old }
{
    let mut answers = AnswerList::new(answers);
    let ended = work(sheet, &mut answers);
    answers.close(ended);
    Carried {
        ended,
        count: answers.count(),
    }
}
