// Rosters by the rules alone: the first fault of one, and what all lawful ones of a plan show together.

use crate::answer::{Answer, fitting, naming, topmost};
use crate::model::{Day, Plan, Rule};
use anyhow::bail;
use std::alloc::{AllocError, Global};

// What the codes weigh together, each on its day.
fn weight_of(days: &[Day], roster: &[u8]) -> u32 {
    let weights = days.iter().zip(roster).map(|(day, code)| day.weight(*code));
    weights.fold(0u32, |sum, weight| sum.saturating_add(weight))
}

fn keeps(plan: &Plan<'_>, roster: &[u8], rule: &Rule) -> bool {
    let weight = weight_of(rule.window(plan.days), rule.window(roster));
    !rule.in_force || (rule.least <= weight && weight <= rule.most)
}

// Of a roster with a code for each day: the first day whose code is not held, else the first rule that is broken.
fn first_fault(plan: &Plan<'_>, roster: &[u8]) -> Answer {
    let mut days = (1..u32::MAX).zip(plan.days.iter().zip(roster));
    if let Some((day, _)) = days.find(|(_, (day, code))| !day.holds(u32::from(**code))) {
        return Answer::NotHeld(day);
    }
    let mut rules = (1..u32::MAX).zip(plan.rules);
    match rules.find(|(_, rule)| !keeps(plan, roster, rule)) {
        Some((number, rule)) => Answer::Broken {
            rule: number,
            first: rule.first,
            last: rule.last,
        },
        None => Answer::Lawful,
    }
}

// What a check of any list of codes answers.
pub(crate) fn checked(plan: &Plan<'_>, roster: &[u8]) -> Answer {
    let row = topmost(&[
        fitting(1, plan.has_too_many_days()),
        naming(8, plan.rule_past_days()),
        fitting(14, roster.len() != plan.days.len()),
    ]);
    Answer::unless(row, first_fault(plan, roster))
}

// More rosters than so many are not tried.
const MANY: u32 = 100_000;

// Every roster of held codes, by numbers from 0.
#[derive(Drop)]
pub(crate) struct Rosters {
    held: Vec<Vec<u8>>,
    pub(crate) count: u32,
}

impl Rosters {
    pub(crate) fn of(alloc: Global, days: &[Day]) -> anyhow::Result<Rosters> {
        let mut held = Vec::new(alloc);
        let mut count = 1u32;
        for day in days {
            let codes = (0..64u8).filter(|code| day.holds(u32::from(*code)));
            held.push(codes.collect::<Vec<u8>>(alloc)?)?;
            count = count.saturating_mul(day.held_count());
        }
        if count > MANY {
            bail!("too many rosters to be tried");
        }
        Ok(Rosters { held, count })
    }

    // Writes the roster of a number, which has a digit for each day: the place of its code among the held ones.
    pub(crate) fn write(&self, number: u32, roster: &mut Vec<u8>) -> Result<(), AllocError> {
        let mut rest = number as usize;
        roster.clear();
        for codes in &self.held {
            let base = codes.len().max(1);
            roster.push(codes.get(rest % base).copied().unwrap_or(0))?;
            rest /= base;
        }
        Ok(())
    }
}

// On one day the codes that some lawful roster has, and at the mark after it the smallest and the largest total of any.
#[derive(Clone, Copy)]
pub(crate) struct Shown {
    codes: [bool; 64],
    pub(crate) smallest: u32,
    pub(crate) largest: u32,
}

// What all lawful rosters of a plan show together.
#[derive(Drop)]
pub(crate) struct Lawful {
    pub(crate) count: u32,
    pub(crate) days: Vec<Shown>,
}

impl Lawful {
    // None so far.
    pub(crate) fn new(alloc: Global, days: usize) -> Result<Lawful, AllocError> {
        let none = Shown {
            codes: [false; 64],
            smallest: u32::MAX,
            largest: 0,
        };
        Ok(Lawful {
            count: 0,
            days: vec![in alloc; none; days]?,
        })
    }

    // All that there are.
    pub(crate) fn of(alloc: Global, plan: &Plan<'_>) -> anyhow::Result<Lawful> {
        let rosters = Rosters::of(alloc, plan.days)?;
        let mut lawful = Lawful::new(alloc, plan.days.len())?;
        let mut roster = Vec::new(alloc);
        for number in 0..rosters.count {
            rosters.write(number, &mut roster)?;
            if first_fault(plan, roster.as_slice()) == Answer::Lawful {
                lawful.add(plan.days, roster.as_slice());
            }
        }
        Ok(lawful)
    }

    fn add(&mut self, days: &[Day], roster: &[u8]) {
        let mut total = 0u32;
        for ((day, code), shown) in days.iter().zip(roster).zip(self.days.iter_mut()) {
            total = total.saturating_add(day.weight(*code));
            shown.smallest = shown.smallest.min(total);
            shown.largest = shown.largest.max(total);
            if let Some(seen) = shown.codes.get_mut(usize::from(*code)) {
                *seen = true;
            }
        }
        self.count = self.count.saturating_add(1);
    }

    // Whether one of them has the code on the day.
    pub(crate) fn have(&self, day: u32, code: u32) -> bool {
        let index = (day as usize).checked_sub(1);
        let shown = index.and_then(|index| self.days.get(index));
        shown.is_some_and(|shown| shown.codes.get(code as usize) == Some(&true))
    }
}
