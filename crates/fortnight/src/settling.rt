use crate::rosters::{print_codes, tell_check};
use crate::tell;
use failure::Failure;
use kinds::collection::Collection;
use ledger::book::Book;
use limits::link::{Limit, Link};
use limits::system::MARKS;
use papers::Papers;
use settlement::settle;
use settlement::settlement::Settlement;
use settlement::verdict::Verdict;
use std::io;

// A row for each kind of papers and a column for each day, with a cross where they are possible.
pub(crate) fn print_calendar(
    rt: &HostRuntime,
    settlement: &Settlement<'_, '_, Collection>,
) -> Result<(), Failure> {
    println!(rt; "  Agreed. Possible, day by day:")?;
    print!(rt; "          ")?;
    for day in 0..10 {
        print!(rt; "{:>3}", day + 1)?;
    }
    println!(rt; "")?;
    for papers in [Papers::Letters, Papers::Maps] {
        print!(rt; "  {papers:<8}")?;
        for day in 0..10 {
            let possible = settlement.possible(day + 1, u32::from(papers))?;
            print!(rt; "{:>3}", if possible { "x" } else { "." })?;
        }
        println!(rt; "")?;
    }
    Ok(())
}

// Both rosters are put to the check.
fn tell_rosters(
    rt: &HostRuntime,
    settlement: &Settlement<'_, '_, Collection>,
    days: &[Collection; 10],
    book: &Book,
) -> Result<(), Failure> {
    let mut list = [0u8; 10];
    settlement.lean(&mut list)?;
    print!(rt; "  Fewest letters:")?;
    print_codes(rt, &list)?;
    tell_check(rt, days, book, "Checked", &list)?;
    settlement.full(&mut list)?;
    print!(rt; "  Most letters:")?;
    print_codes(rt, &list)?;
    tell_check(rt, days, book, "Checked", &list)?;
    Ok(())
}

fn tell_link(rt: &HostRuntime, link: Link, sum: i32) -> io::Result<()> {
    print!(rt; "    mark {} to mark {}, ", link.from.0, link.to.0)?;
    match link.limit {
        Limit::Most(rule) => print!(rt; "most of rule {rule}")?,
        Limit::Least(rule) => print!(rt; "least of rule {rule}")?,
        Limit::Heaviest(day) => print!(rt; "heaviest of day {day}")?,
        Limit::Lightest(day) => print!(rt; "lightest of day {day}")?,
    }
    println!(rt; ": {}, together {sum}", link.allowance)
}

// The chain link by link, with what the links so far allow together. It has one for each mark at the most.
fn tell_chain(rt: &HostRuntime, settlement: &Settlement<'_, '_, Collection>) -> io::Result<()> {
    println!(rt;
        "  Blocked. Mark 4 stands after day 4, and so on. Round this chain the days on letters"
    )?;
    println!(rt; "  can rise by at most:")?;
    let mut sum = 0i32;
    for k in 1..=MARKS as u32 {
        let Ok(link) = settlement.link(k) else {
            break;
        };
        sum = sum.wrapping_add(i32::from(link.allowance));
        tell_link(rt, link, sum)?;
    }
    println!(rt;
        "    But the chain ends where it began, so they rise by 0: no roster keeps all limits."
    )
}

// Settles the fortnight, and tells what each day may have or why there is no roster.
pub(crate) fn tell_settlement(
    rt: &HostRuntime,
    days: &[Collection; 10],
    book: &Book,
) -> Result<(), Failure> {
    let settlement = settle(days, book);
    match settlement.verdict() {
        Verdict::Refused(refusal) => {
            print!(rt; "  Settling: ")?;
            tell(rt, *refusal)?;
        }
        Verdict::Blocked(_) => tell_chain(rt, &settlement)?,
        Verdict::Agreed(_) => {
            print_calendar(rt, &settlement)?;
            tell_rosters(rt, &settlement, days, book)?;
        }
    }
    Ok(())
}
