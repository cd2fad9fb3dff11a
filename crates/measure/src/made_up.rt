use anyhow::anyhow;
use bounded::Bounded;
use entry::refusal::Refusal;
use kinds::boxes::Boxes;
use ledger::book::Book;
use ledger::days::DAYS;
use limits::system::{LARGEST_WEIGHT, MARKS};
use std::fmt;
use std::str::FromStr;

#[derive(Clone, Copy, PartialEq, Eq, Debug)]
pub(crate) enum Sort {
    // Has a solution.
    Agreed,
    // Has none: the last rule asks more of its days than these can weigh.
    Blocked,
    // Has a solution, but the first rules, of one day each, lead to the smallest totals only all together.
    Slow,
}

impl FromStr for Sort {
    type Err = anyhow::Error;

    fn from_str(word: &str) -> anyhow::Result<Sort> {
        match word {
            "agreed" => Ok(Sort::Agreed),
            "blocked" => Ok(Sort::Blocked),
            "slow" => Ok(Sort::Slow),
            _ => Err(anyhow!("no sort of plan: {word}")),
        }
    }
}

impl fmt::Display for Sort {
    fn fmt<W: fmt::Write>(&self, f: &mut fmt::Formatter<W>) -> fmt::Result {
        f.pad(match self {
            Sort::Agreed => "agreed",
            Sort::Blocked => "blocked",
            Sort::Slow => "slow",
        })
    }
}

impl Sort {
    // How the rule with the number stands to the hidden weights.
    pub(crate) fn stand(self, number: u32, rules: u32, days: u32) -> Stand {
        match self {
            Sort::Slow if number <= days => Stand::Alone(number),
            Sort::Blocked if number == rules => Stand::Above,
            _ => Stand::Around,
        }
    }
}

// How a rule stands to the hidden weights.
#[derive(Clone, Copy, PartialEq, Eq, Debug)]
pub(crate) enum Stand {
    // Over some days, whose sum keeps it.
    Around,
    // Over one day, which weighs no less than it asks.
    Alone(u32),
    // Over some days, and it asks more of them than their weights with all their leeway.
    Above,
}

// How far a day or a rule strays from the hidden weights at most.
const DAY_LEEWAY: u32 = 15;

const RULE_LEEWAY: u32 = 8;

// Numbers that look like chance, the same in every run.
#[derive(Drop)]
pub(crate) struct Draws(pub(crate) u32);

impl Draws {
    pub(crate) fn between(&mut self, low: u32, high: u32) -> u32 {
        self.0 = self.0.wrapping_mul(1_664_525).wrapping_add(1_013_904_223);
        let count = high.saturating_sub(low).saturating_add(1);
        low.wrapping_add((self.0 >> 16) % count)
    }

    // The first and the last of some days in a row.
    fn window(&mut self, days: u32) -> (u32, u32) {
        let first = self.between(1, days);
        (first, self.between(first, days))
    }

    // A rule's first and last day, its least and its most. No day weighs more than `top`.
    pub(crate) fn rule(
        &mut self,
        stand: Stand,
        days: u32,
        totals: &Bounded<u32, MARKS>,
        top: u32,
    ) -> [u32; 4] {
        let (first, last) = match stand {
            Stand::Alone(day) => (day, day),
            Stand::Around | Stand::Above => self.window(days),
        };
        let before = first.saturating_sub(1);
        let count = last.saturating_sub(before);
        let sum = total_at(totals, last).saturating_sub(total_at(totals, before));
        let least = match stand {
            Stand::Alone(_) => sum,
            Stand::Above => sum.saturating_add(count.saturating_mul(DAY_LEEWAY + 1)),
            Stand::Around => {
                self.between(sum.saturating_sub(RULE_LEEWAY), sum.saturating_sub(1))
            }
        };
        let most = sum.max(least).saturating_add(self.between(1, RULE_LEEWAY));
        let largest = count.saturating_mul(top);
        [first, last, least.min(largest), most.min(largest)]
    }
}

// What can be settled: days, and the rules over them.
#[derive(Drop)]
pub(crate) struct Plan {
    pub(crate) entries: Bounded<Boxes, DAYS>,
    pub(crate) book: Book,
}

// A plan whose days and rules stand around hidden weights, which solve it unless it is blocked.
pub(crate) fn made_up(days: u32, rules: u32, sort: Sort) -> Result<Plan, Refusal> {
    let mut draws = Draws(days);
    let mut plan = Plan {
        entries: Bounded::new(Boxes::new(0, 0)?),
        book: Book::new(),
    };
    let totals = add_days(&mut plan, &mut draws, days)?;
    for number in 1..=rules {
        let stand = sort.stand(number, rules, days);
        let [first, last, least, most] = draws.rule(stand, days, &totals, LARGEST_WEIGHT);
        plan.book
            .rule(plan.entries.as_slice(), first, last, least, most)?;
    }
    Ok(plan)
}

// The answer is the hidden total at each mark.
fn add_days(plan: &mut Plan, draws: &mut Draws, days: u32) -> Result<Bounded<u32, MARKS>, Refusal> {
    let mut total = 0u32;
    let mut totals = Bounded::new(total);
    let _ = totals.push(total);
    for _ in 0..days {
        let weight = draws.between(0, LARGEST_WEIGHT);
        let lightest = draws.between(weight.saturating_sub(DAY_LEEWAY), weight);
        let heaviest = draws.between(
            weight,
            weight.saturating_add(DAY_LEEWAY).min(LARGEST_WEIGHT),
        );
        let entry = Boxes::new(lightest, heaviest)?;
        plan.entries.push(entry).map_err(|_| Refusal::TooManyDays)?;
        total = total.wrapping_add(weight);
        let _ = totals.push(total);
    }
    Ok(totals)
}

pub(crate) fn total_at(totals: &Bounded<u32, MARKS>, mark: u32) -> u32 {
    totals.as_slice().get(mark as usize).copied().unwrap_or(0)
}
