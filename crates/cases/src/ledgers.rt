use course::replay;
use entry::refusal::Refusal;
use entry::traits::Entry;
use kinds::boxes::Boxes;
use kinds::duty::Duty;
use ledger::book::Book;
use ledger::call::Call;
use ledger::days::{day_count, grant, strike};
use ledger::rule::Rule;
use std::test::Fail;

#[test]
fn windows_of_seven_days(rt: HostRuntime) -> Result<(), Fail> {
    let days = [Duty::new(&[0, 1])?; 7];
    let mut book = Book::new();
    for (width, numbers) in [(5, Some((1, 3))), (7, Some((4, 4))), (8, None)] {
        assert_eq!(rt; book.slide(&days, width, 2, 3), Ok(numbers));
    }
    let expected = [
        Rule::made(1, 5, 2, 3),
        Rule::made(2, 6, 2, 3),
        Rule::made(3, 7, 2, 3),
        Rule::made(1, 7, 2, 3),
    ];
    assert_eq!(rt; book.rules(), expected.as_slice());
    Ok(())
}

#[test]
fn withdrawn_rules_keep_their_numbers(rt: HostRuntime) -> Result<(), Fail> {
    let days = [Duty::new(&[0, 1])?; 7];
    let mut book = Book::new();
    assert_eq!(rt; book.slide(&days, 5, 2, 3), Ok(Some((1, 3))));
    assert_eq!(rt; book.withdraw(2), Ok(()));
    assert_eq!(rt; book.withdraw(2), Err(Refusal::NoSuchRule));
    assert_eq!(rt; book.rule(&days, 2, 4, 1, 2), Ok(4));
    let expected = [
        Rule::made(1, 5, 2, 3),
        Rule::made(2, 6, 2, 3).ended(),
        Rule::made(3, 7, 2, 3),
        Rule::made(2, 4, 1, 2),
    ];
    assert_eq!(rt; book.rules(), expected.as_slice());
    Ok(())
}

#[test]
fn a_book_has_room_for_512(rt: HostRuntime) -> Result<(), Fail> {
    let days = [Duty::new(&[0, 1])?; 128];
    let mut book = Book::new();
    for (width, first, last) in [(1, 1, 128), (1, 129, 256), (1, 257, 384), (2, 385, 511)] {
        assert_eq!(rt; book.slide(&days, width, 0, 1), Ok(Some((first, last))));
    }
    assert_eq!(rt; book.slide(&days, 127, 0, 1), Err(Refusal::BookFull));
    assert_eq!(rt; book.rule(&days, 128, 128, 0, 1), Ok(512));
    for number in 1..513u32 {
        assert_eq!(rt; book.rule(&days, 1, 1, 0, 1), Err(Refusal::BookFull));
        assert_eq!(rt; book.slide(&days, 129, 0, 1), Ok(None));
        assert_eq!(rt; book.withdraw(number), Ok(()));
    }
    assert_eq!(rt; book.rules().len(), 512);
    Ok(())
}

#[test]
fn extreme_rules(rt: HostRuntime) -> Result<(), Fail> {
    let days = [Boxes::new(1, 4)?; 7];
    let mut book = Book::new();
    for (first, last, least, most, refusal) in [
        (0, 1, 0, 0, Refusal::BadWindow),
        (1, u32::MAX, 0, 0, Refusal::BadWindow),
        (u32::MAX, u32::MAX, 0, 0, Refusal::BadWindow),
        (u32::MAX, 0, u32::MAX, 0, Refusal::BadWindow),
        (7, 8, 0, 0, Refusal::BadWindow),
        (1, 7, u32::MAX, 0, Refusal::BadCount),
        (1, 7, u32::MAX, u32::MAX, Refusal::BadCount),
        (1, 7, 0, 442, Refusal::BadCount),
        (7, 7, 1, 0, Refusal::BadCount),
    ] {
        assert_eq!(rt; book.rule(&days, first, last, least, most), Err(refusal));
    }
    assert_eq!(rt; book.rule(&days, 1, 7, 441, 441), Ok(1));
    assert_eq!(rt; book.rule(&days, 7, 7, 0, 0), Ok(2));
    Ok(())
}

#[test]
fn extreme_slides(rt: HostRuntime) -> Result<(), Fail> {
    let days = [Boxes::new(1, 4)?; 7];
    let mut book = Book::new();
    for (width, least, most, answer) in [
        (0, 1, 0, Err(Refusal::BadWindow)),
        (0, u32::MAX, u32::MAX, Err(Refusal::BadWindow)),
        (u32::MAX, 1, 0, Err(Refusal::BadCount)),
        (8, 0, 505, Err(Refusal::BadCount)),
        (8, 0, 504, Ok(None)),
        (u32::MAX, u32::MAX, u32::MAX, Ok(None)),
    ] {
        assert_eq!(rt; book.slide(&days, width, least, most), answer);
    }
    assert_eq!(rt; book.withdraw(0), Err(Refusal::NoSuchRule));
    assert_eq!(rt; book.withdraw(u32::MAX), Err(Refusal::NoSuchRule));
    assert!(rt; book.rules().is_empty());
    Ok(())
}

#[test]
fn extreme_days_and_codes(rt: HostRuntime) -> Result<(), Fail> {
    for (day, code, struck, granted) in [
        (0, 0, Err(Refusal::NoSuchDay), Err(Refusal::NoSuchDay)),
        (
            u32::MAX,
            u32::MAX,
            Err(Refusal::NoSuchDay),
            Err(Refusal::NoSuchDay),
        ),
        (8, 64, Err(Refusal::NoSuchDay), Err(Refusal::NoSuchDay)),
        (7, 64, Err(Refusal::UnknownCode), Err(Refusal::UnknownCode)),
        (
            7,
            u32::MAX,
            Err(Refusal::UnknownCode),
            Err(Refusal::UnknownCode),
        ),
        (7, 3, Err(Refusal::WeightGap), Ok(())),
        (7, 6, Ok(()), Err(Refusal::WeightGap)),
        (1, 4, Ok(()), Ok(())),
    ] {
        let mut days = [Boxes::new(1, 4)?; 7];
        assert_eq!(rt; strike(&mut days, day, code), struck);
        assert_eq!(rt; grant(&mut days, day, code), granted);
    }
    Ok(())
}

#[test]
fn one_day_is_edited(rt: HostRuntime) -> Result<(), Fail> {
    let mut days = [Boxes::new(1, 4)?; 3];
    assert_eq!(rt; strike(&mut days, 2, 1), Ok(()));
    assert_eq!(rt; grant(&mut days, 3, 5), Ok(()));
    assert_eq!(rt; days.map(|day| day.holds(1)), [true, false, true]);
    assert_eq!(rt; days.map(|day| day.holds(5)), [false, false, true]);
    Ok(())
}

#[test]
fn too_many_days(rt: HostRuntime) -> Result<(), Fail> {
    let mut days = [Duty::new(&[0])?; 129];
    let mut book = Book::new();
    assert_eq!(rt; day_count(&days), Err(Refusal::TooManyDays));
    assert_eq!(rt; book.rule(&days, 0, 0, 1, 0), Err(Refusal::TooManyDays));
    assert_eq!(rt; book.slide(&days, 0, 1, 0), Err(Refusal::TooManyDays));
    assert_eq!(rt; strike(&mut days, 0, 64), Err(Refusal::TooManyDays));
    assert_eq!(rt; grant(&mut days, 1, 1), Err(Refusal::TooManyDays));
    assert!(rt; book.rules().is_empty() && !days[0].holds(1));
    Ok(())
}

// Calls on three days, some of them to be refused.
const COURSE: [Call; 9] = [
    Call::Slide {
        width: 2,
        least: 2,
        most: 8,
    },
    Call::Rule {
        first: 3,
        last: 2,
        least: 0,
        most: 0,
    },
    Call::Strike { day: 2, code: 4 },
    Call::Strike { day: 2, code: 2 },
    Call::Settle,
    Call::Withdraw { number: 1 },
    Call::Withdraw { number: 1 },
    Call::Grant { day: 3, code: 5 },
    Call::Rule {
        first: 3,
        last: 3,
        least: 5,
        most: 5,
    },
];

// Refused calls in between leave no trace: the numbers that follow are the next ones.
#[test]
fn a_course_of_calls(rt: HostRuntime) -> Result<(), Fail> {
    let mut days = [Boxes::new(1, 4)?; 3];
    let mut book = Book::new();
    replay(&mut days, &mut book, &COURSE);
    let expected = [
        Rule::made(1, 2, 2, 8).ended(),
        Rule::made(2, 3, 2, 8),
        Rule::made(3, 3, 5, 5),
    ];
    assert_eq!(rt; book.rules(), expected.as_slice());
    assert!(rt; days[0].holds(4) && !days[1].holds(4) && days[1].holds(2) && days[2].holds(5));
    Ok(())
}
