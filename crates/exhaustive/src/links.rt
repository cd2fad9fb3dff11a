// Chains: whether one is sound, point by point of the definition.

use crate::model::Plan;
use limits::link::{Limit, Link};
use std::fmt;

// Why a chain is not sound.
#[derive(Clone, Copy, PartialEq, Eq, Debug)]
pub(crate) enum Unsound {
    // The k-th link is not in the table of limits.
    NotInTable(usize),
    // The link after the k-th does not start where that one ends.
    Apart(usize),
    Open,
    TooLong,
    NotNegative,
}

impl fmt::Display for Unsound {
    fn fmt<W: fmt::Write>(&self, f: &mut fmt::Formatter<W>) -> fmt::Result {
        match self {
            Unsound::NotInTable(k) => write!(f, "link {k} is no limit of the plan"),
            Unsound::Apart(k) => write!(f, "link {k} does not meet the next"),
            Unsound::Open => write!(f, "it does not end where it starts"),
            Unsound::TooLong => write!(f, "it has more links than there are marks"),
            Unsound::NotNegative => write!(f, "its sum is not below zero"),
        }
    }
}

// A line of the table: two marks, and by how much the total rises at most from the one to the other.
type Line = (u32, u32, i64);

// The line of a limit, where it is one of a rule in force or of a day.
fn line_of(plan: &Plan<'_>, limit: Limit) -> Option<Line> {
    match limit {
        Limit::Most(number) => {
            let rule = plan.rule(number)?;
            Some((rule.first.checked_sub(1)?, rule.last, i64::from(rule.most)))
        }
        Limit::Least(number) => {
            let rule = plan.rule(number)?;
            Some((
                rule.last,
                rule.first.checked_sub(1)?,
                -i64::from(rule.least),
            ))
        }
        Limit::Heaviest(number) => {
            let day = plan.day(number)?;
            Some((number.checked_sub(1)?, number, i64::from(day.heaviest())))
        }
        Limit::Lightest(number) => {
            let day = plan.day(number)?;
            Some((number, number.checked_sub(1)?, -i64::from(day.lightest())))
        }
    }
}

fn is_in_table(plan: &Plan<'_>, link: &Link) -> bool {
    let line = (
        u32::from(link.from.0),
        u32::from(link.to.0),
        i64::from(link.allowance),
    );
    line_of(plan, link.limit) == Some(line)
}

// The first point that the chain does not meet. A chain without links is closed, but its sum is not below zero.
pub(crate) fn why_unsound(plan: &Plan<'_>, chain: &[Link]) -> Option<Unsound> {
    let mut links = (1..usize::MAX).zip(chain);
    if let Some((k, _)) = links.find(|(_, link)| !is_in_table(plan, link)) {
        return Some(Unsound::NotInTable(k));
    }
    let mut pairs = (1..usize::MAX).zip(chain.iter().zip(chain.iter().skip(1)));
    if let Some((k, _)) = pairs.find(|(_, (link, next))| link.to != next.from) {
        return Some(Unsound::Apart(k));
    }
    if chain.first().map(|link| link.from) != chain.last().map(|link| link.to) {
        return Some(Unsound::Open);
    }
    if chain.len() > plan.days.len().saturating_add(1) {
        return Some(Unsound::TooLong);
    }
    let allowances = chain.iter().map(|link| i64::from(link.allowance));
    let sum = allowances.fold(0i64, |sum, allowance| sum.saturating_add(allowance));
    (sum >= 0).then_some(Unsound::NotNegative)
}
