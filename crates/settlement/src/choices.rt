ghost use Rattle.std.specs.Prelude.{◌≡◌, ℕ, ◌≤◌, ◌+◌, length, map};
ghost use Rattle.limits.specs.Systems.{days, at_mark};
ghost use Rattle.settlement.specs.Choices.{Weighs, Picks, EachAttains, EachPicks, Reachable, Chooses, EachRising, Agrees};

use crate::verdict::Agreement;
use bounded::Bounded;
use closure::{Closure, Rise};
use codes::set::CodeSet;
use entry::traits::Entry;
use ledger::days::DAYS;
use limits::link::Mark;

// The possible codes of each day, and the two rosters, from what the limits of the plan allow together.
pub(crate) fn agreement<E: Entry>(entries: &[E], closure: &Closure<'_>) -> Agreement
    requires days { (length entries.now ≤ 128) × (days closure.now.system.now ≡ length entries.now) }
    requires reachable { Reachable closure.now.system.now (map E.meaning entries.now) }
    ensures { Agrees closure.now.system.now (map E.meaning entries.now) result }
{
    Agreement {
        possible: possible_codes(entries, closure),
        lean: roster_of(entries, closure.smallest().as_slice()),
        full: roster_of(entries, closure.largest().as_slice()),
    }
}

// For each day the held codes whose weight is one of its rises. The days are those of the closure, so each has its rises.
fn possible_codes<E: Entry>(entries: &[E], closure: &Closure<'_>) -> Bounded<CodeSet, DAYS>
    requires { (length entries.now ≤ 128) × (days closure.now.system.now ≡ length entries.now) }
    ensures { EachRising closure.now.system.now (map E.meaning entries.now) result }
{
    let mut possible = Bounded::new(CodeSet::empty());
    for (index, entry) in entries.iter().enumerate() {
        let before = index as u8;
        let Some(rise) = closure.rise(Mark(before), Mark(before + 1)) else {
            unreachable!()
        };
        let _ = possible.push(codes_within(entry, rise));
    }
    possible
}

// The held codes whose weight is one of the rises.
fn codes_within<E: Entry>(entry: &E, rise: Rise) -> CodeSet
    ensures { Chooses (E.meaning entry.now) rise.least rise.most result }
{
    let mut set = CodeSet::empty();
    for code in 0..64 {
        let weight = entry.weight(code) as i16;
        if entry.holds(code) && rise.least <= weight && weight <= rise.most {
            set = set.with(code);
        }
    }
    set
}

// On each day the smallest held code that weighs what the totals rise by.
fn roster_of<E: Entry>(entries: &[E], totals: &[i16]) -> Bounded<u8, DAYS>
    requires days { (length entries.now ≤ 128) × (length totals.now ≡ length entries.now + 1) }
    requires attained { EachAttains (map E.meaning entries.now) (at_mark totals.now) }
    ensures { EachPicks (map E.meaning entries.now) (at_mark totals.now) result }
{
    let mut roster = Bounded::new(0);
    for (index, entry) in entries.iter().enumerate() {
        let weight = totals[index + 1] - totals[index];
        let _ = roster.push(smallest_of(entry, weight));
    }
    roster
}

// The smallest held code of the weight. The callers have seen to it that there is one.
fn smallest_of<E: Entry>(entry: &E, weight: i16) -> u8
    requires { (code : ℕ) × Weighs (E.meaning entry.now) weight code }
    ensures { Picks (E.meaning entry.now) weight result }
{
    for code in 0..64 {
        if entry.holds(code) && entry.weight(code) as i16 == weight {
            return code as u8;
        }
    }
    unreachable!()
}
