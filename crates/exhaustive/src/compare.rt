// What the planner tells beside what is due by the rules. Each comparison takes the planner's answer as a value.

ghost use Rattle.std.specs.Prelude.{◌≡◌, if◌then◌else◌, OnOk};

use crate::answer::Answer;
use crate::difference::{Asked, Difference, Flaw, Side};
use crate::links::why_unsound;
use crate::model::{CODES, Cell, Day, Kind, Plan, Rule, number};
use crate::outcome::Outcome;
use crate::rosters::checked;
use entry::refusal::Refusal;
use entry::traits::Entry;
use ledger::rule;
use limits::link::Link;
use roster::finding::Finding;
use settlement::verdict::{Agreement, Verdict};

// What a list holds before lean or full writes into it. It is no code.
pub(crate) const FILLER: u8 = 170;

fn report(difference: Difference, differs: bool) -> Result<(), Difference>
    ensures { result ≡ (if differs then Err difference else Ok tt) }
{
    if differs { Err(difference) } else { Ok(()) }
}

pub(crate) fn compare(asked: Asked, due: Answer, told: Answer) -> Result<(), Difference>
    ensures { OnOk result (due ≡ told) }
{
    report(Difference::Answer { asked, due, told }, due != told)
}

// What a kind tells without an entry.
pub(crate) fn compare_kind<E: Entry>(kind: Kind) -> Result<(), Difference> {
    report(Difference::Top, E::TOP != kind.top())?;
    for code in (0..=CODES).chain([u32::MAX]) {
        report(Difference::Known(code), E::known(code) != kind.knows(code))?;
    }
    Ok(())
}

pub(crate) fn compare_entries<E: Entry>(days: &[Day], entries: &[E]) -> Result<(), Difference> {
    report(Difference::Days, days.len() != entries.len())?;
    for (day, (due, told)) in (1..u32::MAX).zip(days.iter().zip(entries)) {
        compare_entry(day, due, told)?;
    }
    Ok(())
}

// Every code of the day, and the first number past them.
fn compare_entry<E: Entry>(day: u32, due: &Day, entry: &E) -> Result<(), Difference> {
    for code in 0..=CODES {
        let due = due.cell(code);
        let told = Cell {
            weight: entry.weight(code),
            held: entry.holds(code),
        };
        let difference = Difference::Cell {
            day,
            code,
            due,
            told,
        };
        report(difference, due != told)?;
    }
    let differs = due.lightest() != entry.lightest() || due.heaviest() != entry.heaviest();
    report(Difference::Ends(day), differs)
}

pub(crate) fn compare_rules(due: &[Rule], told: &[rule::Rule]) -> Result<(), Difference> {
    for (number, (due, told)) in (1..u32::MAX).zip(due.iter().zip(told)) {
        let told = Rule {
            first: told.first,
            last: told.last,
            least: told.least,
            most: told.most,
            in_force: told.in_force,
        };
        report(Difference::Rule(number), *due != told)?;
    }
    let both = number(due.len().min(told.len()));
    report(
        Difference::Rule(both.saturating_add(1)),
        due.len() != told.len(),
    )
}

// All that the verdict has of an agreed or of a blocked plan.
pub(crate) fn compare_verdict(outcome: &Outcome<'_>, told: &Verdict) -> Result<(), Difference> {
    match told {
        Verdict::Agreed(agreement) => compare_agreement(outcome, agreement),
        Verdict::Blocked(chain) => compare_chain(&outcome.plan, chain.as_slice()),
        Verdict::Refused(_) => Ok(()),
    }
}

fn compare_agreement(outcome: &Outcome<'_>, told: &Agreement) -> Result<(), Difference> {
    let sets = told.possible.as_slice();
    report(Difference::Days, sets.len() != outcome.plan.days.len())?;
    for (day, set) in (1..u32::MAX).zip(sets) {
        let mut codes = 0..=CODES;
        let differs = codes.any(|code| set.contains(code) != outcome.lawful.have(day, code));
        report(Difference::Codes(day), differs)?;
    }
    compare_roster(Side::Lean, outcome, told.lean.as_slice())?;
    compare_roster(Side::Full, outcome, told.full.as_slice())
}

fn compare_chain(plan: &Plan<'_>, told: &[Link]) -> Result<(), Difference> {
    match why_unsound(plan, told) {
        Some(unsound) => Err(Difference::Chain(unsound)),
        None => Ok(()),
    }
}

// The links that are told one by one: those of the chain of a blocked plan, and none of another plan.
pub(crate) fn compare_links(verdict: &Verdict, told: &[Link]) -> Result<(), Difference> {
    let chain = match verdict {
        Verdict::Blocked(chain) => chain.as_slice(),
        Verdict::Agreed(_) | Verdict::Refused(_) => &[],
    };
    report(Difference::Links, chain != told)
}

// A lean or a full roster: lawful, with the smallest or the largest total at each mark, and on each day the smallest code.
fn compare_roster(side: Side, outcome: &Outcome<'_>, told: &[u8]) -> Result<(), Difference> {
    let found = checked(&outcome.plan, told);
    let unlawful = Difference::Roster(side, Flaw::Unlawful(found));
    report(unlawful, found != Answer::Lawful)?;
    let mut total = 0u32;
    let days = outcome.plan.days.iter().zip(&outcome.lawful.days);
    for (number, ((day, shown), code)) in (1..u32::MAX).zip(days.zip(told)) {
        let weight = day.weight(*code);
        total = total.saturating_add(weight);
        let due = match side {
            Side::Lean => shown.smallest,
            Side::Full => shown.largest,
        };
        report(Difference::Roster(side, Flaw::Total(number)), total != due)?;
        let differs = day.smallest_of(weight) != Some(u32::from(*code));
        report(Difference::Roster(side, Flaw::Code(number)), differs)?;
    }
    Ok(())
}

// A list after lean or full was asked for: the roster in front where it is written, and no other change.
pub(crate) fn compare_list(
    side: Side,
    outcome: &Outcome<'_>,
    is_written: bool,
    list: &[u8],
) -> Result<(), Difference> {
    let days = outcome.plan.days.len();
    let count = if is_written { days } else { 0 };
    let (front, rest) = list.split_at(count.min(list.len()));
    report(
        Difference::List(side),
        rest.iter().any(|byte| *byte != FILLER),
    )?;
    if is_written {
        compare_roster(side, outcome, front)?;
    }
    Ok(())
}

// What a check finds, and the codes that it shows.
pub(crate) fn compare_check(
    plan: &Plan<'_>,
    roster: &[u8],
    told: Result<Finding<'_>, Refusal>,
) -> Result<(), Difference> {
    compare(Asked::Check, checked(plan, roster), Answer::from(told))?;
    match told {
        Ok(Finding::Broken { rule, stretch, .. }) => {
            let due = plan.rule(rule).map(|rule| rule.window(roster));
            report(Difference::Stretch, due != Some(stretch))
        }
        _ => Ok(()),
    }
}
