// A reviewer's fortnight: its rules, rosters checked against them, and what it is settled to.
#![tactic(auto)]

mod rosters;
mod settling;
mod sheets;

use entry::refusal::Refusal;
use failure::Failure;
use kinds::collection::Collection;
use ledger::book::Book;
use ledger::days;
use papers::Papers;
use rosters::tell_check;
use settling::tell_settlement;
use sheets::tell_sheets;
use std::io;

// Ends a line that says what was asked: by which row it is refused, and why.
pub(crate) fn tell(rt: &HostRuntime, refusal: Refusal) -> io::Result<()> {
    println!(rt; "refused ({}), {refusal}.", refusal.number())
}

// Ten working days. The closed letters count; on days 4 and 8 they stay in the safe.
pub(crate) fn granted() -> Result<[Collection; 10], Refusal> {
    let letters = u32::from(Papers::Letters);
    let maps = u32::from(Papers::Maps);
    let both = Collection::new(&[letters, maps], &[letters])?;
    let maps_only = Collection::new(&[maps], &[letters])?;
    Ok([
        both, both, both, maps_only, both, both, both, maps_only, both, both,
    ])
}

// Says in a sentence what came of a rule.
fn tell_rule(rt: &HostRuntime, asked: &str, answer: Result<u32, Refusal>) -> io::Result<()> {
    print!(rt; "  {asked}: ")?;
    match answer {
        Ok(number) => println!(rt; "rule {number}."),
        Err(refusal) => tell(rt, refusal),
    }
}

fn make_rules(rt: &HostRuntime, days: &[Collection], book: &mut Book) -> io::Result<()> {
    println!(rt; "The rules of a fortnight of ten days:")?;
    print!(rt; "  Two to three days on closed letters in any five: ")?;
    match book.slide(days, 5, 2, 3) {
        Ok(Some((first, last))) => println!(rt; "rules {first} to {last}.")?,
        Ok(None) => println!(rt; "no rule.")?,
        Err(refusal) => tell(rt, refusal)?,
    }
    tell_rule(
        rt,
        "At most two from day 3 to day 7, for the donor",
        book.rule(days, 3, 7, 0, 2),
    )?;
    tell_rule(
        rt,
        "At most one from day 9 to day 12",
        book.rule(days, 9, 12, 0, 1),
    )?;
    tell_rule(rt, "Three from day 1 to day 2", book.rule(days, 1, 2, 3, 3))
}

fn withdraw(rt: &HostRuntime, book: &mut Book, number: u32) -> io::Result<()> {
    print!(rt; "  Rule {number}: ")?;
    match book.withdraw(number) {
        Ok(()) => println!(rt; "withdrawn."),
        Err(refusal) => tell(rt, refusal),
    }
}

// Three rosters are checked, and the first once more when the donor's rule is withdrawn.
fn play_checks(rt: &HostRuntime, days: &[Collection], book: &mut Book) -> io::Result<()> {
    use Papers::{Letters as L, Maps as M};

    let dense = [L, M, L, M, L, L, M, M, L, M].map(u8::from);
    let spread = [L, L, M, M, L, M, L, M, L, M].map(u8::from);
    let locked = [L, L, M, L, M, M, L, M, L, M].map(u8::from);
    println!(rt; "\nThree rosters are checked:")?;
    tell_check(rt, days, book, "The first", &dense)?;
    tell_check(rt, days, book, "The second", &spread)?;
    tell_check(rt, days, book, "The third", &locked)?;
    println!(rt; "\nThe donor takes the rule back, twice by mistake:")?;
    withdraw(rt, book, 7)?;
    withdraw(rt, book, 7)?;
    tell_check(rt, days, book, "The first roster", &dense)
}

// The fortnight is settled, then with a rule that blocks it, without it again, and with the letters closed on a day.
fn play_settling(
    rt: &HostRuntime,
    days: &mut [Collection; 10],
    book: &mut Book,
) -> Result<(), Failure> {
    println!(rt; "\nThe fortnight is settled:")?;
    tell_settlement(rt, days, book)?;
    println!(rt; "\nAnother donor asks for more than there is:")?;
    tell_rule(rt, "None from day 5 to day 7", book.rule(days, 5, 7, 0, 0))?;
    tell_settlement(rt, days, book)?;
    println!(rt; "\nThe other donor takes the rule back:")?;
    withdraw(rt, book, 8)?;
    tell_settlement(rt, days, book)?;
    println!(rt; "\nThe letters are closed on days 2 and 3, and the fortnight is settled anew:")?;
    for day in [2, 3] {
        days::strike(days, day, u32::from(Papers::Letters))?;
    }
    tell_settlement(rt, days, book)
}

fn main(rt: HostRuntime) -> Result<(), Failure> {
    let mut days = granted()?;
    let mut book = Book::new();
    make_rules(&rt, &days, &mut book)?;
    play_checks(&rt, &days, &mut book)?;
    play_settling(&rt, &mut days, &mut book)?;
    tell_sheets(&rt)
}
