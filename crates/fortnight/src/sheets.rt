use crate::settling::print_calendar;
use bounded::Bounded;
use carry::carry;
use course::settle_after;
use failure::Failure;
use kinds::collection::Collection;
use ledger::book::Book;
use ledger::call::Call;
use reader::place::{FaultKind, ReadFault};
use sheet::fault::LineFault;
use sheet::sheet::Sheet;
use sheet::start::Start;
use std::io;

// The grants and the calls of the fortnight, line by line.
const FORTNIGHT: &[u8] = b"(sheet collection 10 (codes 3 12) (counts 3))
(strike 4 3)
(strike 8 3)
(slide 5 (count 2 3))
(rule (days 3 7) (count 0 2))
(rule (days 9 12) (count 0 1))
(rule (days 1 2) (count 3 3))
(withdraw 7)
(withdraw 7)
(settle)
(rule (days 5 7) (count 0 0))
(settle)
(withdraw 8)
(settle)
(strike 2 3)
(strike 3 3)
";

// Its first lines, with a blank too many.
const MISTYPED: &[u8] = b"(sheet collection 10 (codes 3 12) (counts 3))
(strike 4  3)
(strike 8 3)
";

type Calls = Bounded<Call, 64>;

// What a sheet starts with, and its calls, as far as there is room; or the first fault.
fn read(text: &[u8]) -> Result<(Start, Calls), LineFault> {
    let (start, mut sheet) = Sheet::open(text)?;
    let mut calls = Bounded::new(Call::Settle);
    for _ in 0..64 {
        let Some(call) = sheet.next_call()? else {
            break;
        };
        let _ = calls.push(call);
    }
    Ok((start, calls))
}

fn tell_fault(rt: &HostRuntime, fault: LineFault) -> io::Result<()> {
    let ReadFault { kind, place } = fault.read;
    let words = match kind {
        FaultKind::Bytes => "no line has such a byte",
        FaultKind::Form => "no line goes on like this",
    };
    println!(rt; "  Line {}, column {}: {words}.", place.line, place.column)
}

// The calls are made on a new plan of ten days, all in one.
fn tell_calls(rt: &HostRuntime, start: Start, calls: &[Call]) -> Result<(), Failure> {
    println!(rt; "  {} lines after the first.", calls.len())?;
    if let Start::Collection {
        days: 10,
        codes,
        counts,
    } = start
    {
        let mut days = [Collection::from_sets(codes.codes, counts.codes); 10];
        let mut book = Book::new();
        let settlement = settle_after(&mut days, &mut book, calls);
        print_calendar(rt, &settlement)?;
    }
    Ok(())
}

// Every line of the sheet once more, worked and answered by one call.
fn tell_answers(rt: &HostRuntime, text: &[u8]) -> Result<(), Failure> {
    let mut list = [0; 1024];
    let carried = carry(text, &mut list);
    let answers = str::from_utf8(&list[..carried.count]);
    println!(rt; "  Answered line by line:")?;
    for answer in answers
        .map_err(|_| io::Error::from(io::ErrorKind::InvalidData))?
        .lines()
    {
        println!(rt; "    {answer}")?;
    }
    println!(rt; "  Ended by refusal {}.", carried.number())?;
    Ok(())
}

// The fortnight from a sheet, and from one that is mistyped.
pub(crate) fn tell_sheets(rt: &HostRuntime) -> Result<(), Failure> {
    for (name, text) in [("a sheet", FORTNIGHT), ("a mistyped sheet", MISTYPED)] {
        println!(rt; "\nThe fortnight from {name}:")?;
        match read(text) {
            Ok((start, calls)) => tell_calls(rt, start, calls.as_slice())?,
            Err(fault) => tell_fault(rt, fault)?,
        }
        tell_answers(rt, text)?;
    }
    Ok(())
}
