// Plans and calls that are made up by chance, mostly sensible ones.

ghost use Rattle.std.specs.Prelude.{◌≤◌};

use crate::calls::{Call, ROOM};
use crate::model::{CODES, Day, Kind, Ledger, Plan, Rule, Start, number};
use crate::tally::Tally;
use crate::trial::{Build, Trial};
use std::alloc::{AllocError, Global};

// Numbers that look like chance, the same for the same seed.
#[derive(Drop)]
pub(crate) struct Draws(u32);

impl Draws {
    // The state is never 0, where it would stay.
    pub(crate) fn new(seed: u32) -> Draws {
        Draws(seed.wrapping_mul(2_654_435_761).max(1))
    }

    fn next(&mut self) -> u32 {
        let mut state = self.0;
        state ^= state << 13;
        state ^= state >> 17;
        state ^= state << 5;
        self.0 = state;
        state
    }

    fn between(&mut self, low: u32, high: u32) -> u32
        ensures { low ≤ high → (low ≤ result) × (result ≤ high) }
    {
        let count = high.saturating_sub(low).saturating_add(1);
        low.saturating_add(self.next() % count)
    }

    fn byte(&mut self) -> u8 {
        (self.next() >> 24) as u8
    }

    fn is_one_in(&mut self, count: u32) -> bool {
        self.between(1, count) == 1
    }

    // Mostly the number, and now and then one that is out of place.
    fn mostly(&mut self, number: u32) -> u32 {
        if !self.is_one_in(24) {
            return number;
        }
        match self.between(0, 6) {
            0 => 0,
            1 => u32::MAX,
            // So many days of boxes that what they can weigh is no longer a number of 32 bits.
            2 => 68_174_085,
            3 => self.between(60, 70),
            4 | 5 => number.saturating_add(1),
            _ => self.between(0, 10),
        }
    }
}

// What a plan is like.
#[derive(Clone, Copy)]
struct Shape {
    days: u32,
    // Of so many days nearly each holds a single code.
    is_long: bool,
    // Runs of boxes begin a little above.
    low: u32,
    // How far the counts of a rule lie from a sum.
    leeway: u32,
}

impl Shape {
    fn of(draws: &mut Draws) -> Shape {
        let is_long = draws.is_one_in(60);
        Shape {
            days: if is_long {
                draws.between(120, 132)
            } else {
                draws.between(0, 5)
            },
            is_long,
            low: draws.between(0, 59),
            leeway: u32::from(draws.is_one_in(3)),
        }
    }

    // How many codes a day holds.
    fn held(&self, draws: &mut Draws) -> u32 {
        if self.is_long {
            1 + u32::from(draws.is_one_in(40))
        } else if draws.is_one_in(40) {
            0
        } else {
            draws.between(1, 4)
        }
    }
}

// What days are opened with.
impl Draws {
    fn start(&mut self, alloc: Global, kind: Kind, shape: &Shape) -> Result<Start, AllocError> {
        let held = shape.held(self);
        match kind {
            Kind::Duty => Ok(Start::Duty {
                codes: self.codes(alloc, held, 1)?,
            }),
            Kind::Collection => {
                let codes = self.codes(alloc, held, 63)?;
                // A code that is not held may count too.
                let mut counts = self.codes(alloc, 1, 63)?;
                for code in &codes {
                    if self.is_one_in(2) {
                        counts.push(*code)?;
                    }
                }
                Ok(Start::Collection { codes, counts })
            }
            Kind::Boxes => {
                let low = shape.low.saturating_add(self.between(0, 3));
                let after = low.saturating_add(held).min(CODES);
                Ok(match after.checked_sub(1) {
                    Some(high) if held > 0 => Start::Boxes { low, high },
                    _ => Start::Boxes {
                        low: low.saturating_add(1),
                        high: low,
                    },
                })
            }
        }
    }

    fn codes(&mut self, alloc: Global, count: u32, last: u32) -> Result<Vec<u32>, AllocError> {
        let mut codes = Vec::new(alloc);
        for _ in 0..count {
            codes.push(self.between(0, last))?;
        }
        Ok(codes)
    }

    // With one number that is no code.
    fn unknown_start(
        &mut self,
        alloc: Global,
        kind: Kind,
        shape: &Shape,
    ) -> Result<Start, AllocError> {
        let end = kind.end();
        let unknown = match self.between(0, 2) {
            0 => end,
            1 => u32::MAX,
            _ => self.between(end, 300),
        };
        let mut start = self.start(alloc, kind, shape)?;
        let first = self.is_one_in(2);
        match &mut start {
            Start::Duty { codes } => codes.push(unknown)?,
            Start::Collection { codes, .. } if first => codes.insert(0, unknown)?,
            Start::Collection { counts, .. } => counts.push(unknown)?,
            Start::Boxes { low, .. } if first => *low = unknown,
            Start::Boxes { high, .. } => *high = unknown,
        }
        Ok(start)
    }

    // Some held code of a day, if there is one.
    fn held_code(&mut self, day: &Day) -> Option<u32> {
        let from = self.between(0, 63);
        (from..CODES).chain(0..from).find(|code| day.holds(*code))
    }

    // A roster to be checked, half of the time with another code on some day, and now and then too short or too long.
    fn roster(&mut self, alloc: Global, plan: &Plan<'_>) -> Result<Vec<u8>, AllocError> {
        let mut roster = Vec::new(alloc);
        for day in plan.days {
            let code = self.held_code(day).unwrap_or(0);
            roster.push(u8::try_from(code).unwrap_or(0))?;
        }
        if self.is_one_in(2) {
            let index = self.between(0, number(plan.days.len()).saturating_sub(1));
            if let Some(code) = roster.get_mut(index as usize) {
                *code = self.byte();
            }
        }
        if self.is_one_in(8) {
            let _ = roster.pop();
        } else if self.is_one_in(8) {
            roster.push(0)?;
        }
        Ok(roster)
    }
}

// Calls.
impl Draws {
    // The least and the most of a rule on some days: round a sum that they can weigh, often the smallest or the largest one, and
    // now and then just past these.
    fn counts(&mut self, ledger: &Ledger, first: u32, last: u32, leeway: u32) -> [u32; 2] {
        let window = Rule::new(first, last, 0, 0);
        let (mut light, mut heavy) = (0u32, 0u32);
        for day in window.window(ledger.days.as_slice()) {
            light = light.saturating_add(day.lightest());
            heavy = heavy.saturating_add(day.heaviest());
        }
        let sum = match self.between(0, 9) {
            0 => heavy.saturating_add(1),
            1 => light.saturating_sub(1),
            2 => light,
            3 => heavy,
            _ => self.between(light, heavy),
        };
        let least = sum.saturating_sub(self.between(0, leeway));
        [least, sum.saturating_add(self.between(0, leeway))]
    }

    fn rule_or_slide(&mut self, ledger: &Ledger, shape: &Shape) -> Call {
        if self.is_one_in(4) {
            self.slide(ledger, shape)
        } else {
            self.rule(ledger, shape)
        }
    }

    fn rule(&mut self, ledger: &Ledger, shape: &Shape) -> Call {
        let days = number(ledger.days.len());
        let first = self.between(1, days);
        let far = if self.is_one_in(4) {
            days
        } else {
            first.saturating_add(5)
        };
        let last = self.between(first, days.min(far));
        let [least, most] = self.counts(ledger, first, last, shape.leeway);
        Call::Rule {
            first: self.mostly(first),
            last: self.mostly(last),
            least: self.mostly(least),
            most: self.mostly(most),
        }
    }

    fn slide(&mut self, ledger: &Ledger, shape: &Shape) -> Call {
        let days = number(ledger.days.len());
        let width = self.between(1, days.min(5));
        let [least, most] = self.counts(ledger, 1, width, shape.leeway.max(width / 2));
        Call::Slide {
            width: self.mostly(width),
            least: self.mostly(least),
            most: self.mostly(most),
        }
    }

    fn withdraw(&mut self, ledger: &Ledger) -> Call {
        let number = self.between(1, number(ledger.rules.len()));
        Call::Withdraw {
            number: self.mostly(number),
        }
    }

    fn strike(&mut self, ledger: &Ledger) -> Call {
        let number = self.between(1, number(ledger.days.len()));
        let day = ledger.plan(ledger.days.len()).day(number);
        let code = day.and_then(|day| self.held_code(day)).unwrap_or(0);
        Call::Strike {
            day: self.mostly(number),
            code: self.mostly(code),
        }
    }

    // Of boxes mostly near the held ones.
    fn grant(&mut self, ledger: &Ledger) -> Call {
        let number = self.between(1, number(ledger.days.len()));
        let day = ledger.plan(ledger.days.len()).day(number);
        let code = match (ledger.kind, day) {
            (Kind::Boxes, Some(day)) => {
                let low = day.lightest().saturating_sub(2);
                self.between(low, day.heaviest().saturating_add(2))
            }
            (kind, _) => self.between(0, kind.end().saturating_sub(1)),
        };
        Call::Grant {
            day: self.mostly(number),
            code: self.mostly(code),
        }
    }

    // Nothing is granted where there are many rosters already.
    fn edit(&mut self, ledger: &Ledger, shape: &Shape) -> Call {
        match self.between(0, 11) {
            0..=3 => self.strike(ledger),
            4..=6 if has_few_rosters(ledger) => self.grant(ledger),
            7 | 8 => self.withdraw(ledger),
            _ => self.rule_or_slide(ledger, shape),
        }
    }

    // How many days a call is handed: mostly all.
    fn handed(&mut self, ledger: &Ledger) -> usize {
        let days = ledger.days.len();
        let fewer = self.between(0, number(days)) as usize;
        if self.is_one_in(12) { fewer } else { days }
    }
}

fn has_few_rosters(ledger: &Ledger) -> bool {
    let counts = ledger.days.iter().map(|day| day.held_count());
    counts.fold(1u32, |all, count| all.saturating_mul(count)) <= 1000
}

// Opens days, makes rules, and then settles and edits by turns.
pub(crate) fn play<E: Build>(
    alloc: Global,
    trial: &mut Trial<E>,
    draws: &mut Draws,
    tally: &mut Tally,
) -> anyhow::Result<()> {
    let shape = Shape::of(draws);
    open_days(alloc, trial, draws, &shape, tally)?;
    if shape.is_long && draws.is_one_in(2) {
        fill_book(trial, tally)?;
    }
    let rules = draws.between(0, 4).max(draws.between(0, 4));
    for _ in 0..rules {
        let call = draws.rule_or_slide(&trial.ledger, &shape);
        edit(trial, call, draws, tally)?;
    }
    settle(alloc, trial, draws, tally)?;
    let rounds = draws.between(1, 3);
    for _ in 0..rounds {
        let edits = draws.between(1, 3);
        for _ in 0..edits {
            let call = draws.edit(&trial.ledger, &shape);
            edit(trial, call, draws, tally)?;
        }
        settle(alloc, trial, draws, tally)?;
    }
    Ok(())
}

// Now and then an entry is tried that is refused.
fn open_days<E: Build>(
    alloc: Global,
    trial: &mut Trial<E>,
    draws: &mut Draws,
    shape: &Shape,
    tally: &mut Tally,
) -> anyhow::Result<()> {
    for _ in 0..shape.days {
        if draws.is_one_in(12) {
            let unknown = draws.unknown_start(alloc, E::kind(), shape)?;
            trial.open(unknown, tally)?;
        }
        let start = draws.start(alloc, E::kind(), shape)?;
        trial.open(start, tally)?;
    }
    Ok(())
}

// Rules for which all sums will do, just as many as the book has room for. The last slide has as many windows as are left.
fn fill_book<E: Build>(trial: &mut Trial<E>, tally: &mut Tally) -> anyhow::Result<()> {
    let top = trial.ledger.kind.top();
    let days = trial.ledger.days.len();
    for _ in 0..4 {
        trial.edit(wide_slide(top, 1), days, tally)?;
    }
    let left = ROOM.saturating_sub(trial.ledger.rules.len());
    let width = number(days).saturating_add(1).saturating_sub(number(left));
    trial.edit(wide_slide(top, width), days, tally)
}

fn wide_slide(top: u32, width: u32) -> Call {
    Call::Slide {
        width,
        least: 0,
        most: top.saturating_mul(width),
    }
}

fn edit<E: Build>(
    trial: &mut Trial<E>,
    call: Call,
    draws: &mut Draws,
    tally: &mut Tally,
) -> anyhow::Result<()> {
    let days = draws.handed(&trial.ledger);
    trial.edit(call, days, tally)
}

fn settle<E: Build>(
    alloc: Global,
    trial: &mut Trial<E>,
    draws: &mut Draws,
    tally: &mut Tally,
) -> anyhow::Result<()> {
    let days = draws.handed(&trial.ledger);
    trial.settle(alloc, days, tally)?;
    for _ in 0..8 {
        let roster = draws.roster(alloc, &trial.ledger.plan(days))?;
        trial.check(roster, days, tally)?;
    }
    Ok(())
}
