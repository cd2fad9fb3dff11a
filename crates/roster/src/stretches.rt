ghost use Rattle.std.specs.Prelude.{◌≡◌, ◌≤◌, map, length};
ghost use Rattle.ledger.specs.Rosters.{stretch, weight_of};

use entry::traits::Entry;
use ledger::rule::Rule;

// Of one item for each day, those on the days of the rule.
pub(crate) fn stretch<T>(rule: Rule, all: &[T]) -> &[T]
    requires { (1 ≤ rule.first) × (rule.first ≤ rule.last) × (rule.last ≤ length all.now) }
    ensures { result.now ≡ stretch rule all.now }
{
    &all[rule.first as usize - 1..rule.last as usize]
}

// What the codes weigh together, each in the entry of its day.
pub(crate) fn weight_of<E: Entry>(entries: &[E], roster: &[u8]) -> u32
    requires { length entries.now ≤ 128 }
    ensures { result ≡ weight_of (map E.meaning entries.now) roster.now }
{
    entries
        .iter()
        .zip(roster)
        .map(|(entry, code)| entry.weight(u32::from(*code)))
        .sum()
}
