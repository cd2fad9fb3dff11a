ghost use Rattle.std.specs.Prelude.{◌≡◌};
ghost use Rattle.tokens.specs.Lines.{Line, call, Stands};
ghost use Rattle.ledger.specs.declared.call.Call.{Call};
ghost use Rattle.sheet.specs.Drafts.{Gathered, Holds, fresh, worded, numbered, value_of, gathered};
ghost use Rattle.sheet.specs.Starts.{Shows};

use crate::code_list::CodeList;
use crate::start::Start;
use ledger::call::Call;

// What a line is called.
#[derive(Clone, Copy)]
pub(crate) enum Name {
    Duty,
    Collection,
    Boxes,
    Rule,
    Slide,
    Withdraw,
    Strike,
    Grant,
    Settle,
}

// Where the next number of a line belongs: among its single numbers, or into a list.
#[derive(Clone, Copy)]
pub(crate) enum Part {
    Single,
    Codes,
    Counts,
}

// What the tokens so far say of a line. The first `count` of the single numbers are filled.
#[derive(Clone, Copy)]
pub(crate) struct Draft {
    name: Name,
    part: Part,
    single: [u32; 4],
    count: usize,
    codes: CodeList,
    counts: CodeList,
}

impl Draft {
    // A settle is a line with no other name, no number and no list.
    pub(crate) fn new() -> Draft
        ensures { Holds result fresh }
    {
        Draft {
            name: Name::Settle,
            part: Part::Single,
            single: [0; 4],
            count: 0,
            codes: CodeList::new(),
            counts: CodeList::new(),
        }
    }

    // A word names the line, or begins a list; the others change nothing.
    pub(crate) fn word(&mut self, word: &[u8])
        ensures { (g : Gathered) → Holds self.old g → Holds self.new (worded g word.now) }
    {
        match word {
            b"duty" => self.name = Name::Duty,
            b"collection" => self.name = Name::Collection,
            b"boxes" => self.name = Name::Boxes,
            b"rule" => self.name = Name::Rule,
            b"slide" => self.name = Name::Slide,
            b"withdraw" => self.name = Name::Withdraw,
            b"strike" => self.name = Name::Strike,
            b"grant" => self.name = Name::Grant,
            b"codes" => self.part = Part::Codes,
            b"counts" => self.part = Part::Counts,
            _ => {}
        }
    }

    // A number, by its digits.
    pub(crate) fn number(&mut self, digits: &[u8])
        ensures { (g : Gathered) → Holds self.old g → Holds self.new (numbered g (value_of digits.now)) }
    {
        let number = value(digits);
        match self.part {
            Part::Codes => self.codes.push(number),
            Part::Counts => self.counts.push(number),
            Part::Single => {
                if self.count < 4 {
                    self.single[self.count] = number;
                    self.count += 1;
                }
            }
        }
    }

    // The first line of which this is the draft.
    pub(crate) fn start(&self) -> Start
        ensures { (l : Line) → Holds self.now (gathered l) → Stands 0 l → Shows l result }
    {
        let [days, low, high, _] = self.single;
        match self.name {
            Name::Duty => Start::Duty {
                days,
                codes: self.codes,
            },
            Name::Collection => Start::Collection {
                days,
                codes: self.codes,
                counts: self.counts,
            },
            // The names of calls stand on later lines alone.
            _ => Start::Boxes { days, low, high },
        }
    }

    // The call of which this is the draft.
    pub(crate) fn call(&self) -> Call
        ensures { (c : Call) → Holds self.now (gathered (call c)) → result ≡ c }
    {
        let [first, second, third, fourth] = self.single;
        match self.name {
            Name::Rule => Call::Rule {
                first,
                last: second,
                least: third,
                most: fourth,
            },
            Name::Slide => Call::Slide {
                width: first,
                least: second,
                most: third,
            },
            Name::Withdraw => Call::Withdraw { number: first },
            Name::Strike => Call::Strike {
                day: first,
                code: second,
            },
            Name::Grant => Call::Grant {
                day: first,
                code: second,
            },
            // The names of kinds stand on the first line alone.
            _ => Call::Settle,
        }
    }
}

// The number that the digits write.
fn value(digits: &[u8]) -> u32
    ensures { result ≡ value_of digits.now }
{
    let mut number = 0u32;
    for digit in digits {
        let last = u32::from(digit.saturating_sub(b'0'));
        number = number.wrapping_mul(10).wrapping_add(last);
    }
    number
}
