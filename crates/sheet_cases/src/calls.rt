use crate::texts::from_line;
use codes::set::CodeSet;
use ledger::call::Call;
use sheet::code_list::CodeList;
use sheet::fault::LineFault;
use sheet::sheet::Sheet;
use sheet::start::Start;
use std::alloc::{AllocError, Global};
use std::process::Abort;
use std::test::Fail;

// The list of these numbers, one after another.
fn list(numbers: &[u32]) -> CodeList {
    let mut list = CodeList::new();
    for number in numbers {
        list.push(*number);
    }
    list
}

// What a text's first line says, and the next three, where it has them.
type Said = (Start, [Option<Call>; 3]);

fn read(text: &[u8]) -> Result<Said, LineFault> {
    let (start, mut sheet) = Sheet::open(text)?;
    let calls = [sheet.next_call()?, sheet.next_call()?, sheet.next_call()?];
    Ok((start, calls))
}

// The line with this number ends the text, first without byte 10 and then with it.
fn says<R: Abort>(
    rt: &R,
    alloc: Global,
    number: u32,
    line: &str,
    said: Said,
) -> Result<(), AllocError> {
    let mut text = from_line(alloc, number, line.as_bytes())?;
    assert_eq!(rt; read(text.as_slice()), Ok(said), "{line}");
    text.push(b'\n')?;
    assert_eq!(rt; read(text.as_slice()), Ok(said), "{line} and byte 10");
    Ok(())
}

// The numbers of a first line.
#[derive(Clone, Copy)]
enum Numbers {
    Duty(u32, &'static [u32]),
    Collection(u32, &'static [u32], &'static [u32]),
    Boxes(u32, u32, u32),
}

fn start(numbers: Numbers) -> Start {
    match numbers {
        Numbers::Duty(days, codes) => Start::Duty {
            days,
            codes: list(codes),
        },
        Numbers::Collection(days, codes, counts) => Start::Collection {
            days,
            codes: list(codes),
            counts: list(counts),
        },
        Numbers::Boxes(days, low, high) => Start::Boxes { days, low, high },
    }
}

// First lines with their numbers: those of a list once each, and 64 for all that are above 63.
#[rattlefmt::skip]
const STARTS: [(&str, Numbers); 13] = [
    ("(sheet duty 0 (codes))", Numbers::Duty(0, &[])),
    ("(sheet duty 1 (codes 0))", Numbers::Duty(1, &[0])),
    ("(sheet duty 999999 (codes 63 0 5 0 63))", Numbers::Duty(999_999, &[0, 5, 63])),
    ("(sheet duty 7 (codes 64))", Numbers::Duty(7, &[64])),
    ("(sheet duty 7 (codes 1 999999 1))", Numbers::Duty(7, &[1, 64])),
    ("(sheet collection 0 (codes) (counts))", Numbers::Collection(0, &[], &[])),
    ("(sheet collection 1 (codes 4 7 9) (counts 9 7))", Numbers::Collection(1, &[4, 7, 9], &[7, 9])),
    ("(sheet collection 999999 (codes) (counts 3))", Numbers::Collection(999_999, &[], &[3])),
    ("(sheet collection 7 (codes 64) (counts))", Numbers::Collection(7, &[64], &[])),
    ("(sheet collection 7 (codes 0) (counts 1 999999 1))", Numbers::Collection(7, &[0], &[1, 64])),
    ("(sheet boxes 0 (span 0 0))", Numbers::Boxes(0, 0, 0)),
    ("(sheet boxes 1 (span 2 999999))", Numbers::Boxes(1, 2, 999_999)),
    ("(sheet boxes 999999 (span 999999 1))", Numbers::Boxes(999_999, 999_999, 1)),
];

// Later lines with their calls.
#[rattlefmt::skip]
const CALLS: [(&str, Call); 16] = [
    ("(rule (days 1 2) (count 3 4))", Call::Rule { first: 1, last: 2, least: 3, most: 4 }),
    ("(rule (days 0 999999) (count 0 999999))", Call::Rule { first: 0, last: 999_999, least: 0, most: 999_999 }),
    ("(rule (days 999999 0) (count 999999 0))", Call::Rule { first: 999_999, last: 0, least: 999_999, most: 0 }),
    ("(slide 5 (count 2 3))", Call::Slide { width: 5, least: 2, most: 3 }),
    ("(slide 0 (count 1 999999))", Call::Slide { width: 0, least: 1, most: 999_999 }),
    ("(slide 999999 (count 0 1))", Call::Slide { width: 999_999, least: 0, most: 1 }),
    ("(withdraw 0)", Call::Withdraw { number: 0 }),
    ("(withdraw 1)", Call::Withdraw { number: 1 }),
    ("(withdraw 999999)", Call::Withdraw { number: 999_999 }),
    ("(strike 2 3)", Call::Strike { day: 2, code: 3 }),
    ("(strike 0 999999)", Call::Strike { day: 0, code: 999_999 }),
    ("(strike 999999 1)", Call::Strike { day: 999_999, code: 1 }),
    ("(grant 2 3)", Call::Grant { day: 2, code: 3 }),
    ("(grant 1 999999)", Call::Grant { day: 1, code: 999_999 }),
    ("(grant 999999 0)", Call::Grant { day: 999_999, code: 0 }),
    ("(settle)", Call::Settle),
];

// Of a list only the set of its codes counts, and whether a number is above them.
#[test]
fn lists_of_codes(rt: HostRuntime) {
    let some = CodeSet::single(0).with(5).with(63);
    for (numbers, codes, above) in [
        (&[][..], CodeSet::empty(), false),
        (&[63, 0, 5, 0], some, false),
        (&[0, 64, 5, 63], some, true),
        (&[999_999], CodeSet::empty(), true),
    ] {
        let list = list(numbers);
        let kept = (list.codes, list.goes_above);
        assert_eq!(rt; kept, (codes, above), "{numbers:?}");
    }
}

fn first<R: Abort>(rt: &R, alloc: Global, rows: &[(&str, Numbers)]) -> Result<(), AllocError> {
    for (line, numbers) in rows {
        says(rt, alloc, 1, line, (start(*numbers), [None; 3]))?;
    }
    Ok(())
}

// Each line stands behind the first, and then behind another call.
fn later<R: Abort>(rt: &R, alloc: Global, rows: &[(&str, Call)]) -> Result<(), AllocError> {
    let start = start(Numbers::Duty(2, &[0]));
    let before = Some(Call::Strike { day: 8, code: 9 });
    for (line, call) in rows {
        says(rt, alloc, 2, line, (start, [Some(*call), None, None]))?;
        says(rt, alloc, 3, line, (start, [before, Some(*call), None]))?;
    }
    Ok(())
}

#[test]
fn what_lines_say(rt: HostRuntime) -> Result<(), Fail> {
    first(&rt, rt.alloc(), &STARTS)?;
    later(&rt, rt.alloc(), &CALLS)?;
    Ok(())
}
