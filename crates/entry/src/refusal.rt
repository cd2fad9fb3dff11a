ghost use Rattle.std.specs.Prelude.{◌≡◌, Some};
ghost use Rattle.std.specs.Fmt.{padded};
ghost use Rattle.entry.specs.Refusals.{row_of, words_of};

use std::error::Error;
use std::fmt;

// Why a call is declined: the rows of the table of refusals, in its order. A row that names a day or a rule carries
// its number.
#[derive(Clone, Copy, PartialEq, Eq, Debug)]
pub enum Refusal {
    TooManyDays,
    EmptyDay(u32),
    NoSuchDay,
    BadWindow,
    BadCount,
    BookFull,
    NoSuchRule,
    RulePastDays(u32),
    UnknownCode,
    OnlyCode,
    WeightGap,
    BlockedPlan,
    NoSuchLink,
    WrongLength,
    BadLine,
    AnswersFull,
}

impl Refusal {
    // The row's number in the table.
    pub fn number(self) -> u32
        ensures { result ≡ (row_of self).0 }
    {
        match self {
            Refusal::TooManyDays => 1,
            Refusal::EmptyDay(_) => 2,
            Refusal::NoSuchDay => 3,
            Refusal::BadWindow => 4,
            Refusal::BadCount => 5,
            Refusal::BookFull => 6,
            Refusal::NoSuchRule => 7,
            Refusal::RulePastDays(_) => 8,
            Refusal::UnknownCode => 9,
            Refusal::OnlyCode => 10,
            Refusal::WeightGap => 11,
            Refusal::BlockedPlan => 12,
            Refusal::NoSuchLink => 13,
            Refusal::WrongLength => 14,
            Refusal::BadLine => 15,
            Refusal::AnswersFull => 16,
        }
    }

    // The row in a few words, for a reader who asked for what was declined.
    fn words(self) -> &'static str
        ensures { result.now ≡ words_of self }
    {
        match self {
            Refusal::TooManyDays => "a plan has 128 days at the most",
            Refusal::EmptyDay(_) => "a day holds no code",
            Refusal::NoSuchDay => "the plan has no such day",
            Refusal::BadWindow => "the plan has no such days",
            Refusal::BadCount => "no days can add up to that",
            Refusal::BookFull => "the book has no room for that",
            Refusal::NoSuchRule => "no rule in force has that number",
            Refusal::RulePastDays(_) => "a rule in force ends past the days",
            Refusal::UnknownCode => "there is no such code",
            Refusal::OnlyCode => "nothing else is left for that day",
            Refusal::WeightGap => "the numbers allowed would no longer be consecutive",
            Refusal::BlockedPlan => "the plan is blocked",
            Refusal::NoSuchLink => "the chain has no such link",
            Refusal::WrongLength => "the list is not as long as the plan",
            Refusal::BadLine => "no such line can stand there",
            Refusal::AnswersFull => "the answers do not fit",
        }
    }
}

impl fmt::Display for Refusal {
    ghost output = { λ refusal. Some (words_of refusal) };

    ghost styled_output = { λ refusal spec. Some (padded spec (words_of refusal)) };

    fn fmt<W: fmt::Write>(&self, f: &mut fmt::Formatter<W>) -> fmt::Result {
        f.pad(self.words())
    }
}

impl Error for Refusal {}
