// Answers to calls and questions, with the rows of the table of refusals by their numbers.

use entry::refusal::Refusal;
use roster::finding::Finding;
use settlement::verdict::Verdict;
use std::fmt;

// A row, with the day or the rule that it names.
#[derive(Clone, Copy, PartialEq, Eq, Debug)]
pub(crate) struct Row {
    pub(crate) number: u32,
    pub(crate) names: Option<u32>,
}

// A row that names nothing, where it fits.
pub(crate) fn fitting(number: u32, fits: bool) -> Option<Row> {
    fits.then_some(Row {
        number,
        names: None,
    })
}

// A row that names a day or a rule, where there is one.
pub(crate) fn naming(number: u32, names: Option<u32>) -> Option<Row> {
    names.is_some().then_some(Row { number, names })
}

// Of the rows that fit, the one with the smallest number is the answer.
pub(crate) fn topmost(rows: &[Option<Row>]) -> Option<Row> {
    rows.iter().copied().flatten().min_by_key(|row| row.number)
}

impl From<Refusal> for Row {
    fn from(refusal: Refusal) -> Row {
        Row {
            number: refusal.number(),
            names: match refusal {
                Refusal::EmptyDay(named) | Refusal::RulePastDays(named) => Some(named),
                _ => None,
            },
        }
    }
}

impl fmt::Display for Row {
    fn fmt<W: fmt::Write>(&self, f: &mut fmt::Formatter<W>) -> fmt::Result {
        match self.names {
            Some(named) => write!(f, "refused by {}, which names {named}", self.number),
            None => write!(f, "refused by {}", self.number),
        }
    }
}

// What a call or a question is answered, by the planner or by the rules.
#[derive(Clone, Copy, PartialEq, Eq, Debug)]
pub(crate) enum Answer {
    Done,
    Rule(u32),
    Rules(u32, u32),
    NoRules,
    Agreed,
    Blocked,
    Possible(bool),
    Link,
    Lawful,
    NotHeld(u32),
    Broken { rule: u32, first: u32, last: u32 },
    Refused(Row),
}

impl Answer {
    // The row that refuses, or else the answer.
    pub(crate) fn unless(row: Option<Row>, answer: Answer) -> Answer {
        row.map_or(answer, Answer::Refused)
    }
}

impl From<Refusal> for Answer {
    fn from(refusal: Refusal) -> Answer {
        Answer::Refused(Row::from(refusal))
    }
}

impl From<Result<(), Refusal>> for Answer {
    fn from(told: Result<(), Refusal>) -> Answer {
        match told {
            Ok(()) => Answer::Done,
            Err(refusal) => Answer::from(refusal),
        }
    }
}

impl From<Result<u32, Refusal>> for Answer {
    fn from(told: Result<u32, Refusal>) -> Answer {
        match told {
            Ok(number) => Answer::Rule(number),
            Err(refusal) => Answer::from(refusal),
        }
    }
}

impl From<Result<Option<(u32, u32)>, Refusal>> for Answer {
    fn from(told: Result<Option<(u32, u32)>, Refusal>) -> Answer {
        match told {
            Ok(Some((first, last))) => Answer::Rules(first, last),
            Ok(None) => Answer::NoRules,
            Err(refusal) => Answer::from(refusal),
        }
    }
}

impl From<Result<bool, Refusal>> for Answer {
    fn from(told: Result<bool, Refusal>) -> Answer {
        match told {
            Ok(possible) => Answer::Possible(possible),
            Err(refusal) => Answer::from(refusal),
        }
    }
}

impl From<Result<Finding<'_>, Refusal>> for Answer {
    fn from(told: Result<Finding<'_>, Refusal>) -> Answer {
        match told {
            Ok(Finding::Lawful) => Answer::Lawful,
            Ok(Finding::NotHeld { day }) => Answer::NotHeld(day),
            Ok(
                Finding::Broken {
                    rule,
                    first,
                    last,
                    ..
                },
            ) => Answer::Broken { rule, first, last },
            Err(refusal) => Answer::from(refusal),
        }
    }
}

impl From<&Verdict> for Answer {
    fn from(told: &Verdict) -> Answer {
        match told {
            Verdict::Agreed(_) => Answer::Agreed,
            Verdict::Blocked(_) => Answer::Blocked,
            Verdict::Refused(refusal) => Answer::from(*refusal),
        }
    }
}

impl fmt::Display for Answer {
    fn fmt<W: fmt::Write>(&self, f: &mut fmt::Formatter<W>) -> fmt::Result {
        match self {
            Answer::Done => write!(f, "done"),
            Answer::Rule(number) => write!(f, "rule {number}"),
            Answer::Rules(first, last) => write!(f, "rules {first} to {last}"),
            Answer::NoRules => write!(f, "no rules"),
            Answer::Agreed => write!(f, "agreed"),
            Answer::Blocked => write!(f, "blocked"),
            Answer::Possible(true) => write!(f, "possible"),
            Answer::Possible(false) => write!(f, "not possible"),
            Answer::Link => write!(f, "a link"),
            Answer::Lawful => write!(f, "lawful"),
            Answer::NotHeld(day) => write!(f, "code of day {day} not held"),
            Answer::Broken { rule, first, last } => {
                write!(f, "rule {rule} broken on days {first} to {last}")
            }
            Answer::Refused(row) => write!(f, "{row}"),
        }
    }
}
