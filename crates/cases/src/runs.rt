use crate::worked::{Days, Outcome, Reply, WorkedPlan, worked_plans};
use chains::chain::sum;
use course::settle_after;
use entry::refusal::Refusal;
use entry::traits::Entry;
use kinds::boxes::Boxes;
use kinds::duty::Duty;
use ledger::book::Book;
use ledger::call::Call;
use ledger::days::{grant, strike};
use limits::link::Link;
use settlement::settlement::Settlement;
use settlement::verdict::Verdict;
use std::alloc::Global;
use std::test::Fail;

fn duty_days(heap: Global, days: &[&[u32]]) -> Result<Vec<Duty>, Fail> {
    let mut entries = Vec::new(heap);
    for codes in days {
        entries.push(Duty::new(codes)?)?;
    }
    Ok(entries)
}

// On each day just the listed codes are possible.
fn keeps<E: Entry>(settlement: &Settlement<'_, '_, E>, keep: &[&[u32]]) -> bool {
    (1u32..).zip(keep).all(|(day, codes)| {
        (0..64).all(|code| {
            !E::known(code) || settlement.possible(day, code) == Ok(codes.contains(&code))
        })
    })
}

// The roster comes first in the list, and what stood behind it stays.
fn begins(list: &[u8], roster: &[u8]) -> bool {
    list.starts_with(roster) && list.iter().skip(roster.len()).all(|byte| *byte == 99)
}

fn shows<E: Entry>(settlement: &Settlement<'_, '_, E>, lean: &[u8], full: &[u8]) -> bool {
    let mut first = [99; 16];
    let mut last = [99; 16];
    settlement.lean(&mut first).is_ok()
        && settlement.full(&mut last).is_ok()
        && begins(&first, lean)
        && begins(&last, full)
}

// The chain has just the listed links, and may start with any of them.
fn is_blocked_by<E: Entry>(settlement: &Settlement<'_, '_, E>, chain: &[Link]) -> bool {
    let links = (1..200u32).filter(|k| settlement.link(*k).is_ok()).count();
    links == chain.len()
        && chain.iter().all(|link| (1..200u32).any(|k| settlement.link(k) == Ok(*link)))
}

// What the links of a blocked plan's chain allow together.
fn allowed_together<E: Entry>(settlement: &Settlement<'_, '_, E>) -> Option<i32> {
    match settlement.verdict() {
        Verdict::Blocked(chain) => Some(sum(chain)),
        Verdict::Agreed(_) | Verdict::Refused(_) => None,
    }
}

// What the call answers where there is no rule. The table has no others.
fn reply<E: Entry>(entries: &mut [E], call: Call) -> Option<Result<Reply, Refusal>> {
    match call {
        Call::Slide { width, least, most } => Some(
            Book::new()
                .slide(entries, width, least, most)
                .map(Reply::Slide),
        ),
        Call::Strike { day, code } => Some(strike(entries, day, code).map(|()| Reply::Done)),
        Call::Grant { day, code } => Some(grant(entries, day, code).map(|()| Reply::Done)),
        Call::Rule { .. } | Call::Withdraw { .. } | Call::Settle => None,
    }
}

// Each call is made alone on the entries as they are.
fn replies<E: Entry>(
    heap: Global,
    entries: &[E],
    asked: &[(Call, Result<Reply, Refusal>)],
) -> Result<bool, Fail> {
    for (call, expected) in asked {
        let mut days = entries.to_vec(heap)?;
        if reply(days.as_mut_slice(), *call) != Some(*expected) {
            return Ok(false);
        }
    }
    Ok(true)
}

fn is_as_expected<E: Entry>(heap: Global, entries: &[E], plan: &WorkedPlan) -> Result<bool, Fail> {
    let mut book = Book::new();
    let mut days = entries.to_vec(heap)?;
    let settlement = settle_after(days.as_mut_slice(), &mut book, plan.calls);
    match plan.outcome {
        Outcome::Agreed { keep, lean, full } => {
            Ok(keeps(&settlement, keep) && shows(&settlement, lean, full))
        }
        Outcome::Blocked { chain, sum } => Ok(
            is_blocked_by(&settlement, chain)
                && allowed_together(&settlement) == Some(i32::from(sum)),
        ),
        Outcome::Answers(asked) => replies(heap, entries, asked),
    }
}

// The plans of the table, by the calls: each is as it is proved of the definitions.
#[test]
fn worked_plans_by_the_calls(rt: HostRuntime) -> Result<(), Fail> {
    for plan in worked_plans() {
        let as_expected = match plan.days {
            Days::Duty(days) => {
                let entries = duty_days(rt.alloc(), days)?;
                is_as_expected(rt.alloc(), entries.as_slice(), &plan)?
            }
            Days::Boxes { days, low, high } => {
                let entries = vec![in rt.alloc(); Boxes::new(low, high)?; days]?;
                is_as_expected(rt.alloc(), entries.as_slice(), &plan)?
            }
        };
        assert!(rt; as_expected);
    }
    Ok(())
}
