// Calls that edit a plan, judged and worked on the ledger by the rules alone.

ghost use Rattle.std.specs.Prelude.{◌≡◌, ◌+◌, ◌-◌, length};

use crate::answer::{Answer, Row, fitting, topmost};
use crate::model::{Ledger, Plan, Rule, number};
use std::alloc::AllocError;
use std::fmt;

// A book has at most so many rules over its whole life.
pub(crate) const ROOM: usize = 512;

#[derive(Clone, Copy, PartialEq, Eq, Debug)]
pub(crate) enum Call {
    Rule {
        first: u32,
        last: u32,
        least: u32,
        most: u32,
    },
    Slide {
        width: u32,
        least: u32,
        most: u32,
    },
    Withdraw {
        number: u32,
    },
    Strike {
        day: u32,
        code: u32,
    },
    Grant {
        day: u32,
        code: u32,
    },
}

// As in a sheet.
impl fmt::Display for Call {
    fn fmt<W: fmt::Write>(&self, f: &mut fmt::Formatter<W>) -> fmt::Result {
        match self {
            Call::Rule {
                first,
                last,
                least,
                most,
            } => write!(f, "(rule (days {first} {last}) (count {least} {most}))"),
            Call::Slide { width, least, most } => {
                write!(f, "(slide {width} (count {least} {most}))")
            }
            Call::Withdraw { number } => write!(f, "(withdraw {number})"),
            Call::Strike { day, code } => write!(f, "(strike {day} {code})"),
            Call::Grant { day, code } => write!(f, "(grant {day} {code})"),
        }
    }
}

// Least is above most, or most is above what so many days can weigh.
fn is_bad_count(plan: &Plan<'_>, days: u64, least: u32, most: u32) -> bool {
    let largest = u64::from(plan.kind.top()).saturating_mul(days);
    least > most || u64::from(most) > largest
}

fn rule_refusal(plan: &Plan<'_>, rule: &Rule) -> Option<Row> {
    let Rule { first, last, .. } = *rule;
    let length = u64::from(last.saturating_sub(first)) + 1;
    topmost(&[
        fitting(1, plan.has_too_many_days()),
        fitting(
            4,
            first == 0 || first > last || last as usize > plan.days.len(),
        ),
        fitting(5, is_bad_count(plan, length, rule.least, rule.most)),
        fitting(6, plan.rules.len() >= ROOM),
    ])
}

// How many windows of the width there are.
fn windows(plan: &Plan<'_>, width: u32) -> usize
    ensures { result ≡ length plan.now.days.now + 1 - width }
{
    let starts = plan.days.len().saturating_add(1);
    starts.saturating_sub(width as usize)
}

fn slide_refusal(plan: &Plan<'_>, width: u32, least: u32, most: u32) -> Option<Row> {
    let all = plan.rules.len().saturating_add(windows(plan, width));
    topmost(&[
        fitting(1, plan.has_too_many_days()),
        fitting(4, width == 0),
        fitting(5, is_bad_count(plan, u64::from(width), least, most)),
        fitting(6, all > ROOM),
    ])
}

fn strike_refusal(plan: &Plan<'_>, number: u32, code: u32) -> Option<Row> {
    let day = plan.day(number);
    let after = day.map(|day| day.with(code, false));
    let is_held = day.is_some_and(|day| day.holds(code));
    topmost(&[
        fitting(1, plan.has_too_many_days()),
        fitting(3, day.is_none()),
        fitting(9, !plan.kind.knows(code)),
        fitting(10, is_held && after.is_some_and(|after| after.is_empty())),
        fitting(11, after.is_some_and(|after| after.has_gap())),
    ])
}

fn grant_refusal(plan: &Plan<'_>, number: u32, code: u32) -> Option<Row> {
    let day = plan.day(number);
    let after = day.map(|day| day.with(code, true));
    topmost(&[
        fitting(1, plan.has_too_many_days()),
        fitting(3, day.is_none()),
        fitting(9, !plan.kind.knows(code)),
        fitting(11, after.is_some_and(|after| after.has_gap())),
    ])
}

impl Ledger {
    // Answers a call that is handed so many days, and changes the ledger where no row refuses it.
    pub(crate) fn work(&mut self, call: Call, days: usize) -> Result<Answer, AllocError> {
        let plan = self.plan(days);
        match call {
            Call::Rule {
                first,
                last,
                least,
                most,
            } => self.make_rule(days, Rule::new(first, last, least, most)),
            Call::Slide { width, least, most } => self.slide(days, width, least, most),
            Call::Withdraw { number } => Ok(self.withdraw(number)),
            Call::Strike { day, code } => {
                let row = strike_refusal(&plan, day, code);
                Ok(self.edit_unless(row, day, code, false))
            }
            Call::Grant { day, code } => {
                let row = grant_refusal(&plan, day, code);
                Ok(self.edit_unless(row, day, code, true))
            }
        }
    }

    fn make_rule(&mut self, days: usize, rule: Rule) -> Result<Answer, AllocError> {
        if let Some(row) = rule_refusal(&self.plan(days), &rule) {
            return Ok(Answer::Refused(row));
        }
        self.rules.push(rule)?;
        Ok(Answer::Rule(number(self.rules.len())))
    }

    fn slide(
        &mut self,
        days: usize,
        width: u32,
        least: u32,
        most: u32,
    ) -> Result<Answer, AllocError> {
        let plan = self.plan(days);
        if let Some(row) = slide_refusal(&plan, width, least, most) {
            return Ok(Answer::Refused(row));
        }
        let more = number(windows(&plan, width));
        let before = number(self.rules.len());
        for first in 1..=more {
            let last = first.saturating_add(width).saturating_sub(1);
            self.rules.push(Rule::new(first, last, least, most))?;
        }
        if more == 0 {
            return Ok(Answer::NoRules);
        }
        let [first, last] = [1, more].map(|more| before.saturating_add(more));
        Ok(Answer::Rules(first, last))
    }

    fn withdraw(&mut self, number: u32) -> Answer {
        let index = (number as usize).checked_sub(1);
        match index.and_then(|index| self.rules.get_mut(index)) {
            Some(rule) if rule.in_force => {
                rule.in_force = false;
                Answer::Done
            }
            _ => Answer::unless(fitting(7, true), Answer::Done),
        }
    }

    fn edit_unless(&mut self, row: Option<Row>, number: u32, code: u32, held: bool) -> Answer {
        let index = (number as usize).checked_sub(1);
        let day = index.and_then(|index| self.days.get_mut(index));
        if let (None, Some(day)) = (row, day) {
            *day = day.with(code, held);
        }
        Answer::unless(row, Answer::Done)
    }
}
