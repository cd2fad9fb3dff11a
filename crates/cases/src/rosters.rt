use crate::days::seven_days;
use entry::refusal::Refusal;
use kinds::duty::Duty;
use ledger::book::Book;
use roster::check;
use roster::finding::Finding;
use std::test::Fail;

#[test]
fn first_faults(rt: HostRuntime) -> Result<(), Fail> {
    let days = seven_days()?;
    let mut book = Book::new();
    assert_eq!(rt; book.slide(&days, 5, 2, 3), Ok(Some((1, 3))));
    let third = Finding::Broken {
        rule: 3,
        first: 3,
        last: 7,
        stretch: &[0, 0, 1, 0, 0],
    };
    let first = Finding::Broken {
        rule: 1,
        first: 1,
        last: 5,
        stretch: &[1, 1, 0, 1, 1],
    };
    for (roster, expected) in [
        ([1, 1, 0, 0, 1, 0, 1], Finding::Lawful),
        ([1, 1, 0, 0, 1, 1, 5], Finding::NotHeld { day: 6 }),
        ([1, 1, 0, 0, 1, 0, 0], third),
        ([1, 1, 0, 1, 1, 0, 0], first),
        ([255, 1, 0, 1, 1, 0, 0], Finding::NotHeld { day: 1 }),
    ] {
        assert_eq!(rt; check(&days, &book, &roster), Ok(expected));
    }
    assert_eq!(rt; book.withdraw(3), Ok(()));
    assert_eq!(rt;
        check(&days, &book, &[1, 1, 0, 0, 1, 0, 0]),
        Ok(Finding::Lawful)
    );
    Ok(())
}

#[test]
fn refused_checks(rt: HostRuntime) -> Result<(), Fail> {
    let days = seven_days()?;
    let five = &days[..5];
    let mut book = Book::new();
    assert_eq!(rt; book.slide(&days, 5, 2, 3), Ok(Some((1, 3))));
    let eight = [1, 1, 0, 0, 1, 0, 1, 0];
    assert_eq!(rt; check(&days, &book, &[]), Err(Refusal::WrongLength));
    assert_eq!(rt; check(&days, &book, &eight), Err(Refusal::WrongLength));
    for number in [2, 3] {
        assert_eq!(rt; check(five, &book, &[]), Err(Refusal::RulePastDays(number)));
        assert_eq!(rt; book.withdraw(number), Ok(()));
    }
    assert_eq!(rt; check(five, &book, &[1, 1, 0, 0, 1]), Ok(Finding::Lawful));
    Ok(())
}

#[test]
fn no_days_and_too_many(rt: HostRuntime) -> Result<(), Fail> {
    let many = [Duty::new(&[0])?; 129];
    let none: [Duty; 0] = [];
    let book = Book::new();
    assert_eq!(rt; check(&many, &book, &[]), Err(Refusal::TooManyDays));
    assert_eq!(rt; check(&none, &book, &[]), Ok(Finding::Lawful));
    assert_eq!(rt; check(&none, &book, &[0]), Err(Refusal::WrongLength));
    Ok(())
}

// Of all eight rosters the check finds lawful those two that keep both rules.
#[test]
fn every_roster_of_three_days(rt: HostRuntime) -> Result<(), Fail> {
    let days = [Duty::new(&[0, 1])?; 3];
    let mut book = Book::new();
    assert_eq!(rt; book.rule(&days, 1, 2, 1, 1), Ok(1));
    assert_eq!(rt; book.rule(&days, 1, 3, 2, 2), Ok(2));
    assert_eq!(rt; book.rule(&days, 1, 1, 1, 1), Ok(3));
    assert_eq!(rt; book.withdraw(3), Ok(()));
    let lawful = [[0, 1, 1], [1, 0, 1]];
    for n in 0..8u8 {
        let roster = [n / 4, n / 2 % 2, n % 2];
        let expected = lawful.contains(&roster);
        assert_eq!(rt;
            check(&days, &book, &roster) == Ok(Finding::Lawful),
            expected
        );
    }
    Ok(())
}
