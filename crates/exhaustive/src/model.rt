// Days, rules and plans as the rules define them. Nothing here knows the planner.

ghost use Rattle.std.specs.Prelude.{◌≡◌, ◌^◌, ◌<◌, ◌≤◌, true};

use std::alloc::Global;
use std::{array, fmt};

// The codes of every kind are below.
pub(crate) const CODES: u32 = 64;

// A count of days or rules as a number of 32 bits. None comes near the end of these.
pub(crate) fn number(count: usize) -> u32
    ensures { count < 2 ^ 32 → result ≡ count }
{
    u32::try_from(count).unwrap_or(u32::MAX)
}

#[derive(Clone, Copy, PartialEq, Eq, Debug)]
pub(crate) enum Kind {
    Duty,
    Collection,
    Boxes,
}

impl Kind {
    // No code of the kind weighs more.
    pub(crate) fn top(self) -> u32
        ensures { (1 ≤ result) × (result ≤ 63) }
    {
        match self {
            Kind::Duty | Kind::Collection => 1,
            Kind::Boxes => 63,
        }
    }

    // The first number that is no code of the kind.
    pub(crate) fn end(self) -> u32
        ensures { result ≤ 64 }
    {
        match self {
            Kind::Duty => 2,
            Kind::Collection | Kind::Boxes => CODES,
        }
    }

    pub(crate) fn knows(self, code: u32) -> bool
        ensures { result ≡ true → code < 64 }
    {
        code < self.end()
    }
}

impl fmt::Display for Kind {
    fn fmt<W: fmt::Write>(&self, f: &mut fmt::Formatter<W>) -> fmt::Result {
        f.pad(match self {
            Kind::Duty => "duty",
            Kind::Collection => "collection",
            Kind::Boxes => "boxes",
        })
    }
}

// What a day is opened with, as in the first line of a sheet.
#[derive(Drop)]
pub(crate) enum Start {
    Duty { codes: Vec<u32> },
    Collection { codes: Vec<u32>, counts: Vec<u32> },
    Boxes { low: u32, high: u32 },
}

impl Start {
    // Whether each number is a code of the kind.
    pub(crate) fn is_known(&self) -> bool {
        match self {
            Start::Duty { codes } => codes.iter().all(|code| Kind::Duty.knows(*code)),
            Start::Collection { codes, counts } => {
                let mut numbers = codes.iter().chain(counts.iter());
                numbers.all(|code| Kind::Collection.knows(*code))
            }
            Start::Boxes { low, high } => Kind::Boxes.knows(*low) && Kind::Boxes.knows(*high),
        }
    }
}

impl fmt::Display for Start {
    fn fmt<W: fmt::Write>(&self, f: &mut fmt::Formatter<W>) -> fmt::Result {
        match self {
            Start::Duty { codes } => write!(f, "(codes{})", Codes(codes.as_slice())),
            Start::Collection { codes, counts } => {
                let codes = Codes(codes.as_slice());
                write!(f, "(codes{codes}) (counts{})", Codes(counts.as_slice()))
            }
            Start::Boxes { low, high } => write!(f, "(span {low} {high})"),
        }
    }
}

// Each behind a blank.
#[derive(Clone, Copy)]
struct Codes<'c>(&'c [u32]);

impl fmt::Display for Codes<'_> {
    fn fmt<W: fmt::Write>(&self, f: &mut fmt::Formatter<W>) -> fmt::Result {
        for code in self.0 {
            write!(f, " {code}")?;
        }
        Ok(())
    }
}

// One code on one day.
#[derive(Clone, Copy, PartialEq, Eq, Debug)]
pub(crate) struct Cell {
    pub(crate) weight: u32,
    pub(crate) held: bool,
}

const NO_CELL: Cell = Cell {
    weight: 0,
    held: false,
};

impl Cell {
    fn opened(start: &Start, code: u32) -> Cell {
        match start {
            Start::Duty { codes } => Cell {
                weight: u32::from(code == 1),
                held: codes.contains(&code),
            },
            Start::Collection { codes, counts } => Cell {
                weight: u32::from(counts.contains(&code)),
                held: codes.contains(&code),
            },
            Start::Boxes { low, high } => Cell {
                weight: code,
                held: *low <= code && code <= *high,
            },
        }
    }
}

impl fmt::Display for Cell {
    fn fmt<W: fmt::Write>(&self, f: &mut fmt::Formatter<W>) -> fmt::Result {
        let held = if self.held { "held" } else { "not held" };
        write!(f, "weight {}, {held}", self.weight)
    }
}

// What one day may have: a cell for each code.
#[derive(Clone, Copy)]
pub(crate) struct Day {
    cells: [Cell; 64],
}

impl Day {
    // Each cell by the kind's row in the table of kinds.
    pub(crate) fn opened(start: &Start) -> Day {
        Day {
            cells: array::from_fn(|index| Cell::opened(start, index as u32)),
        }
    }

    // A number of 64 or more has no cell: it weighs nothing and is not held.
    pub(crate) fn cell(&self, code: u32) -> Cell {
        self.cells.get(code as usize).copied().unwrap_or(NO_CELL)
    }

    pub(crate) fn holds(&self, code: u32) -> bool {
        self.cell(code).held
    }

    // What a code of a roster weighs.
    pub(crate) fn weight(&self, code: u8) -> u32 {
        self.cell(u32::from(code)).weight
    }

    pub(crate) fn held_count(&self) -> u32 {
        number(self.cells.iter().filter(|cell| cell.held).count())
    }

    pub(crate) fn is_empty(&self) -> bool {
        self.held_count() == 0
    }

    pub(crate) fn lightest(&self) -> u32 {
        let held = self.cells.iter().filter(|cell| cell.held);
        held.map(|cell| cell.weight).min().unwrap_or(0)
    }

    pub(crate) fn heaviest(&self) -> u32 {
        let held = self.cells.iter().filter(|cell| cell.held);
        held.map(|cell| cell.weight).max().unwrap_or(0)
    }

    // The smallest held code of a weight.
    pub(crate) fn smallest_of(&self, weight: u32) -> Option<u32> {
        let mut cells = (0..CODES).zip(&self.cells);
        cells
            .find(|(_, cell)| cell.held && cell.weight == weight)
            .map(|(code, _)| code)
    }

    // Whether for some weight a held code is lighter and another heavier, but none has it.
    pub(crate) fn has_gap(&self) -> bool {
        (0..CODES).any(|weight| {
            let held = || self.cells.iter().filter(|cell| cell.held);
            held().any(|cell| cell.weight < weight)
                && held().any(|cell| weight < cell.weight)
                && !held().any(|cell| cell.weight == weight)
        })
    }

    // The same day with one code held or not.
    pub(crate) fn with(&self, code: u32, held: bool) -> Day {
        let mut day = *self;
        if let Some(cell) = day.cells.get_mut(code as usize) {
            cell.held = held;
        }
        day
    }
}

// While it is in force, the weights on its days add up to `least` at the least and to `most` at the most.
#[derive(Clone, Copy, PartialEq, Eq, Debug)]
pub(crate) struct Rule {
    pub(crate) first: u32,
    pub(crate) last: u32,
    pub(crate) least: u32,
    pub(crate) most: u32,
    pub(crate) in_force: bool,
}

impl Rule {
    // A new rule is in force.
    pub(crate) fn new(first: u32, last: u32, least: u32, most: u32) -> Rule {
        Rule {
            first,
            last,
            least,
            most,
            in_force: true,
        }
    }

    // Of one item for each day, those on the days of the rule.
    pub(crate) fn window<'a, T>(&self, all: &'a [T]) -> &'a [T] {
        let before = self.first.saturating_sub(1) as usize;
        all.get(before..self.last as usize).unwrap_or(&[])
    }
}

impl fmt::Display for Rule {
    fn fmt<W: fmt::Write>(&self, f: &mut fmt::Formatter<W>) -> fmt::Result {
        let Rule {
            first,
            last,
            least,
            most,
            in_force,
        } = *self;
        let state = if in_force { "in force" } else { "withdrawn" };
        write!(f, "days {first} to {last}, {least} to {most}, {state}")
    }
}

// What a call takes for the whole plan: the days that it is handed, and all rules that were made.
#[derive(Clone, Copy)]
pub(crate) struct Plan<'l> {
    pub(crate) kind: Kind,
    pub(crate) days: &'l [Day],
    pub(crate) rules: &'l [Rule],
}

impl<'l> Plan<'l> {
    pub(crate) fn has_too_many_days(&self) -> bool {
        self.days.len() > 128
    }

    // Days and rules count from 1.
    pub(crate) fn day(&self, number: u32) -> Option<&'l Day> {
        self.days.get((number as usize).checked_sub(1)?)
    }

    // The rule in force with the number.
    pub(crate) fn rule(&self, number: u32) -> Option<Rule> {
        let rule = self.rules.get((number as usize).checked_sub(1)?)?;
        rule.in_force.then_some(*rule)
    }

    // The first day that holds no code.
    pub(crate) fn empty_day(&self) -> Option<u32> {
        let mut days = (1..u32::MAX).zip(self.days);
        days.find(|(_, day)| day.is_empty())
            .map(|(number, _)| number)
    }

    // The first rule in force that ends past the days.
    pub(crate) fn rule_past_days(&self) -> Option<u32> {
        let days = self.days.len();
        let mut rules = (1..u32::MAX).zip(self.rules);
        rules
            .find(|(_, rule)| rule.in_force && rule.last as usize > days)
            .map(|(number, _)| number)
    }
}

// All days and all rules.
#[derive(Drop)]
pub(crate) struct Ledger {
    pub(crate) kind: Kind,
    pub(crate) days: Vec<Day>,
    pub(crate) rules: Vec<Rule>,
}

impl Ledger {
    pub(crate) fn new(alloc: Global, kind: Kind) -> Ledger {
        Ledger {
            kind,
            days: Vec::new(alloc),
            rules: Vec::new(alloc),
        }
    }

    // The plan for a call that is handed so many days, the first ones.
    pub(crate) fn plan(&self, days: usize) -> Plan<'_> {
        let all = self.days.as_slice();
        Plan {
            kind: self.kind,
            days: all.get(..days).unwrap_or(all),
            rules: self.rules.as_slice(),
        }
    }
}
