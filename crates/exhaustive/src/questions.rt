// Asks a settlement every question, and compares what it tells with what is due by the rules.

use crate::answer::Answer;
use crate::compare::{FILLER, compare, compare_links, compare_list, compare_verdict};
use crate::difference::{Asked, Difference, Side};
use crate::model::{CODES, number};
use crate::outcome::Outcome;
use crate::tally::{Tally, add};
use entry::traits::Entry;
use settlement::settlement::Settlement;
use std::alloc::Global;

pub(crate) fn ask_all<E: Entry>(
    alloc: Global,
    outcome: &Outcome<'_>,
    settlement: &Settlement<'_, '_, E>,
    tally: &mut Tally,
) -> anyhow::Result<()> {
    let told = settlement.verdict();
    compare(Asked::Verdict, outcome.verdict(), Answer::from(told))?;
    tally.add_settle(outcome.verdict());
    ask_possible(outcome, settlement, tally)?;
    for side in [Side::Lean, Side::Full] {
        ask_rosters(side, outcome, settlement, tally)?;
    }
    ask_links(alloc, outcome, settlement, tally)?;
    compare_verdict(outcome, told)?;
    Ok(())
}

// Each code on each day, and numbers past them.
fn ask_possible<E: Entry>(
    outcome: &Outcome<'_>,
    settlement: &Settlement<'_, '_, E>,
    tally: &mut Tally,
) -> Result<(), Difference> {
    let after = number(outcome.plan.days.len()).saturating_add(1);
    for day in (0..=after).chain([u32::MAX]) {
        for code in (0..=CODES).chain([u32::MAX]) {
            let told = Answer::from(settlement.possible(day, code));
            compare(
                Asked::Possible { day, code },
                outcome.possible(day, code),
                told,
            )?;
            add(&mut tally.codes, 1);
        }
    }
    Ok(())
}

// Into lists of just as many bytes as there are days, of more, and of fewer.
fn ask_rosters<E: Entry>(
    side: Side,
    outcome: &Outcome<'_>,
    settlement: &Settlement<'_, '_, E>,
    tally: &mut Tally,
) -> Result<(), Difference> {
    let days = outcome.plan.days.len();
    for room in [days, days.saturating_add(3), days.saturating_sub(1), 0] {
        let mut bytes = [FILLER; 160];
        let (list, _) = bytes.split_at_mut(room.min(160));
        let told = match side {
            Side::Lean => settlement.lean(list),
            Side::Full => settlement.full(list),
        };
        let due = outcome.roster(list.len());
        compare(Asked::Roster { side, room }, due, Answer::from(told))?;
        compare_list(side, outcome, told.is_ok(), list)?;
        tally.add_row(due);
        add(&mut tally.lists, 1);
        if told.is_ok() {
            add(&mut tally.rosters, 1);
            add(&mut tally.totals, days);
        }
    }
    Ok(())
}

// The chain from its first link on, as far as links are told.
fn ask_links<E: Entry>(
    alloc: Global,
    outcome: &Outcome<'_>,
    settlement: &Settlement<'_, '_, E>,
    tally: &mut Tally,
) -> anyhow::Result<()> {
    let mut chain = Vec::new(alloc);
    // A sound chain is shorter.
    let many = number(outcome.plan.days.len()).saturating_add(3);
    for k in 1..=many {
        match settlement.link(k) {
            Ok(link) => chain.push(link)?,
            Err(_) => break,
        }
    }
    compare_links(settlement.verdict(), chain.as_slice())?;
    add(&mut tally.links, chain.len());
    let after = number(chain.len()).saturating_add(1);
    for k in [0, after, u32::MAX] {
        let told = settlement
            .link(k)
            .map_or_else(Answer::from, |_| Answer::Link);
        compare(Asked::Link { k }, outcome.no_link(), told)?;
        tally.add_row(outcome.no_link());
    }
    Ok(())
}
