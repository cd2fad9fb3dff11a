// What the planner tells otherwise than the rules.

use crate::answer::Answer;
use crate::links::Unsound;
use crate::model::Cell;
use std::error::Error;
use std::fmt;

#[derive(Clone, Copy, PartialEq, Eq, Debug)]
pub(crate) enum Side {
    Lean,
    Full,
}

// What was asked.
#[derive(Clone, Copy, PartialEq, Eq, Debug)]
pub(crate) enum Asked {
    Entry,
    Call,
    Verdict,
    Possible { day: u32, code: u32 },
    Roster { side: Side, room: usize },
    Link { k: u32 },
    Check,
}

// What is wrong with a lean or a full roster.
#[derive(Clone, Copy, PartialEq, Eq, Debug)]
pub(crate) enum Flaw {
    Unlawful(Answer),
    // The total at the mark after the day is not the smallest or the largest.
    Total(u32),
    // The code of the day is not the smallest held one of its weight.
    Code(u32),
}

#[derive(Clone, Copy, PartialEq, Eq, Debug)]
pub(crate) enum Difference {
    // What is due by the rules, and what the planner told.
    Answer {
        asked: Asked,
        due: Answer,
        told: Answer,
    },
    // The top of the kind.
    Top,
    // Whether the kind has the code.
    Known(u32),
    // How many days there are.
    Days,
    Cell {
        day: u32,
        code: u32,
        due: Cell,
        told: Cell,
    },
    // Lightest or heaviest of the day.
    Ends(u32),
    // The rule of the number in the book.
    Rule(u32),
    Roster(Side, Flaw),
    // A list was changed where nothing is to be written.
    List(Side),
    Chain(Unsound),
    // The links that are told one by one are not those of the verdict.
    Links,
    // The possible codes of the day in the verdict.
    Codes(u32),
    // The codes that a check shows of a broken rule's days.
    Stretch,
}

impl fmt::Display for Side {
    fn fmt<W: fmt::Write>(&self, f: &mut fmt::Formatter<W>) -> fmt::Result {
        f.pad(match self {
            Side::Lean => "lean",
            Side::Full => "full",
        })
    }
}

impl fmt::Display for Asked {
    fn fmt<W: fmt::Write>(&self, f: &mut fmt::Formatter<W>) -> fmt::Result {
        match self {
            Asked::Entry => write!(f, "building the last entry"),
            Asked::Call => write!(f, "the last call"),
            Asked::Verdict => write!(f, "the verdict"),
            Asked::Possible { day, code } => write!(f, "possible({day}, {code})"),
            Asked::Roster { side, room } => write!(f, "{side} into {room} bytes"),
            Asked::Link { k } => write!(f, "link({k})"),
            Asked::Check => write!(f, "the last check"),
        }
    }
}

impl fmt::Display for Flaw {
    fn fmt<W: fmt::Write>(&self, f: &mut fmt::Formatter<W>) -> fmt::Result {
        match self {
            Flaw::Unlawful(fault) => write!(f, "is not lawful: {fault}"),
            Flaw::Total(day) => write!(f, "has another total after day {day}"),
            Flaw::Code(day) => write!(f, "has another code on day {day}"),
        }
    }
}

impl fmt::Display for Difference {
    fn fmt<W: fmt::Write>(&self, f: &mut fmt::Formatter<W>) -> fmt::Result {
        match self {
            Difference::Answer { asked, due, told } => {
                write!(f, "{asked}: the planner tells {told}, the rules {due}")
            }
            Difference::Top => write!(f, "the top of the kind"),
            Difference::Known(code) => write!(f, "whether the kind has code {code}"),
            Difference::Days => write!(f, "the number of days"),
            Difference::Cell {
                day,
                code,
                due,
                told,
            } => write!(
                f,
                "day {day}, code {code}: the planner has {told}, the rules {due}"
            ),
            Difference::Ends(day) => write!(f, "lightest or heaviest of day {day}"),
            Difference::Rule(number) => write!(f, "rule {number} in the book"),
            Difference::Roster(side, flaw) => write!(f, "the {side} roster {flaw}"),
            Difference::List(side) => write!(f, "{side} changed more of a list"),
            Difference::Chain(unsound) => write!(f, "the chain is not sound: {unsound}"),
            Difference::Links => write!(f, "the links are not those of the verdict"),
            Difference::Codes(day) => write!(f, "the verdict's possible codes of day {day}"),
            Difference::Stretch => write!(f, "the codes shown of a broken rule's days"),
        }
    }
}

impl Error for Difference {}
