// A plan of the planner's, and beside it the ledger by the rules: both take the same steps, and are compared after each.

use crate::answer::{Answer, fitting};
use crate::calls::Call;
use crate::compare::{compare, compare_check, compare_entries, compare_rules};
use crate::difference::{Asked, Difference};
use crate::model::{Day, Kind, Ledger, Start};
use crate::outcome::Outcome;
use crate::questions::ask_all;
use crate::rosters::Rosters;
use crate::tally::{Tally, add};
use entry::refusal::Refusal;
use entry::traits::Entry;
use kinds::boxes::Boxes;
use kinds::collection::Collection;
use kinds::duty::Duty;
use ledger::book::Book;
use ledger::days;
use roster::check;
use settlement::settle;
use std::alloc::Global;
use std::fmt;

// An entry that is built from what a day of its kind is opened with.
pub(crate) trait Build: Entry {
    fn kind() -> Kind;

    fn build(start: &Start) -> Result<Self, Refusal>;
}

impl Build for Duty {
    fn kind() -> Kind {
        Kind::Duty
    }

    fn build(start: &Start) -> Result<Duty, Refusal> {
        match start {
            Start::Duty { codes } => Duty::new(codes.as_slice()),
            _ => Err(Refusal::UnknownCode),
        }
    }
}

impl Build for Collection {
    fn kind() -> Kind {
        Kind::Collection
    }

    fn build(start: &Start) -> Result<Collection, Refusal> {
        match start {
            Start::Collection { codes, counts } => {
                Collection::new(codes.as_slice(), counts.as_slice())
            }
            _ => Err(Refusal::UnknownCode),
        }
    }
}

impl Build for Boxes {
    fn kind() -> Kind {
        Kind::Boxes
    }

    fn build(start: &Start) -> Result<Boxes, Refusal> {
        match start {
            Start::Boxes { low, high } => Boxes::new(*low, *high),
            _ => Err(Refusal::UnknownCode),
        }
    }
}

#[derive(Clone, Copy)]
enum Step {
    Edit(Call),
    Settle,
}

impl fmt::Display for Step {
    fn fmt<W: fmt::Write>(&self, f: &mut fmt::Formatter<W>) -> fmt::Result {
        match self {
            Step::Edit(call) => write!(f, "{call}"),
            Step::Settle => write!(f, "(settle)"),
        }
    }
}

#[derive(Drop)]
pub(crate) struct Trial<E: Entry> {
    pub(crate) ledger: Ledger,
    entries: Vec<E>,
    book: Book,
    // What led here: the starts of the days, the steps with the number of days that each was handed, and the roster that was
    // checked last.
    starts: Vec<Start>,
    steps: Vec<(usize, Step)>,
    roster: Vec<u8>,
}

impl<E: Build> Trial<E> {
    pub(crate) fn new(alloc: Global) -> Trial<E> {
        Trial {
            ledger: Ledger::new(alloc, E::kind()),
            entries: Vec::new(alloc),
            book: Book::new(),
            starts: Vec::new(alloc),
            steps: Vec::new(alloc),
            roster: Vec::new(alloc),
        }
    }

    // Adds a day, unless its entry is refused.
    pub(crate) fn open(&mut self, start: Start, tally: &mut Tally) -> anyhow::Result<()> {
        let due = Answer::unless(fitting(9, !start.is_known()), Answer::Done);
        let told = E::build(&start);
        let day = Day::opened(&start);
        self.starts.push(start)?;
        compare(Asked::Entry, due, Answer::from(told.map(|_| ())))?;
        tally.add_row(due);
        add(&mut tally.built, 1);
        if let Ok(entry) = told {
            self.ledger.days.push(day)?;
            self.entries.push(entry)?;
        }
        Ok(())
    }

    pub(crate) fn edit(
        &mut self,
        call: Call,
        days: usize,
        tally: &mut Tally,
    ) -> anyhow::Result<()> {
        self.steps.push((days, Step::Edit(call)))?;
        let due = self.ledger.work(call, days)?;
        compare(Asked::Call, due, self.told(call, days))?;
        tally.add_row(due);
        add(&mut tally.calls, 1);
        self.compare_ledger(tally)
    }

    // Makes the call on the planner's plan.
    fn told(&mut self, call: Call, days: usize) -> Answer {
        let count = days.min(self.entries.len());
        let (entries, _) = self.entries.as_mut_slice().split_at_mut(count);
        let book = &mut self.book;
        match call {
            Call::Rule {
                first,
                last,
                least,
                most,
            } => Answer::from(book.rule(entries, first, last, least, most)),
            Call::Slide { width, least, most } => {
                Answer::from(book.slide(entries, width, least, most))
            }
            Call::Withdraw { number } => Answer::from(book.withdraw(number)),
            Call::Strike { day, code } => Answer::from(days::strike(entries, day, code)),
            Call::Grant { day, code } => Answer::from(days::grant(entries, day, code)),
        }
    }

    fn compare_ledger(&self, tally: &mut Tally) -> anyhow::Result<()> {
        compare_entries(self.ledger.days.as_slice(), self.entries.as_slice())?;
        compare_rules(self.ledger.rules.as_slice(), self.book.rules())?;
        add(&mut tally.entries, self.entries.len());
        add(&mut tally.rules, self.ledger.rules.len());
        Ok(())
    }

    // Every question is asked, and every roster of held codes is checked.
    pub(crate) fn settle(
        &mut self,
        alloc: Global,
        days: usize,
        tally: &mut Tally,
    ) -> anyhow::Result<()> {
        self.steps.push((days, Step::Settle))?;
        let rosters = self.question(alloc, days, tally)?;
        for number in 0..rosters.count {
            rosters.write(number, &mut self.roster)?;
            self.check_last(days, tally)?;
        }
        self.compare_ledger(tally)
    }

    // The answer is every roster that there is to be checked.
    fn question(&self, alloc: Global, days: usize, tally: &mut Tally) -> anyhow::Result<Rosters> {
        let outcome = Outcome::of(alloc, self.ledger.plan(days))?;
        let settlement = settle(self.handed(days), &self.book);
        ask_all(alloc, &outcome, &settlement, tally)?;
        Rosters::of(alloc, outcome.plan.days)
    }

    pub(crate) fn check(
        &mut self,
        roster: Vec<u8>,
        days: usize,
        tally: &mut Tally,
    ) -> anyhow::Result<()> {
        self.roster = roster;
        self.check_last(days, tally)?;
        Ok(())
    }

    fn check_last(&self, days: usize, tally: &mut Tally) -> Result<(), Difference> {
        let roster = self.roster.as_slice();
        let told = check(self.handed(days), &self.book, roster);
        compare_check(&self.ledger.plan(days), roster, told)?;
        add(&mut tally.checks, 1);
        Ok(())
    }

    // The entries of the first days.
    fn handed(&self, days: usize) -> &[E] {
        let all = self.entries.as_slice();
        all.get(..days).unwrap_or(all)
    }
}

// All that is needed to play it again.
impl<E: Build> fmt::Display for Trial<E> {
    fn fmt<W: fmt::Write>(&self, f: &mut fmt::Formatter<W>) -> fmt::Result {
        writeln!(f, "Days of {}, in their order:", self.ledger.kind)?;
        for start in &self.starts {
            let refused = if start.is_known() { "" } else { ", refused" };
            writeln!(f, "  {start}{refused}")?;
        }
        writeln!(f, "Calls, each behind how many days it was handed:")?;
        for (days, step) in &self.steps {
            writeln!(f, "  {days} {step}")?;
        }
        writeln!(f, "Rules after them:")?;
        for (number, rule) in (1..u32::MAX).zip(&self.ledger.rules) {
            writeln!(f, "  {number}: {rule}")?;
        }
        write!(f, "Roster that was checked last:")?;
        for code in &self.roster {
            write!(f, " {code}")?;
        }
        Ok(())
    }
}
