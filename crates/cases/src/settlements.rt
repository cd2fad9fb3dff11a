use crate::days::seven_days;
use course::settle_after;
use entry::refusal::Refusal;
use kinds::boxes::Boxes;
use kinds::collection::Collection;
use kinds::duty::Duty;
use ledger::book::Book;
use ledger::call::Call;
use limits::link::{Limit, Link, Mark};
use settlement::settle;
use settlement::verdict::Verdict;
use std::test::Fail;

// A code is not its weight: of the two counted codes the smaller is shown.
#[test]
fn a_counted_code_weighs_one(rt: HostRuntime) -> Result<(), Fail> {
    let days = [Collection::new(&[4, 7, 9], &[7, 9])?];
    let book = Book::new();
    let settlement = settle(&days, &book);
    for code in [4, 7, 9] {
        assert_eq!(rt; settlement.possible(1, code), Ok(true));
    }
    assert_eq!(rt; settlement.possible(1, 5), Ok(false));
    let mut list = [0u8; 1];
    assert_eq!(rt; settlement.lean(&mut list), Ok(()));
    assert_eq!(rt; list, [4]);
    assert_eq!(rt; settlement.full(&mut list), Ok(()));
    assert_eq!(rt; list, [7]);
    Ok(())
}

#[test]
fn no_days(rt: HostRuntime) -> Result<(), Fail> {
    let none: [Boxes; 0] = [];
    let book = Book::new();
    let settlement = settle(&none, &book);
    let mut list = [5u8; 2];
    assert_eq!(rt; settlement.lean(&mut list), Ok(()));
    assert_eq!(rt; settlement.full(&mut list[..0]), Ok(()));
    assert_eq!(rt; list, [5, 5]);
    assert_eq!(rt; settlement.possible(1, 0), Err(Refusal::NoSuchDay));
    assert_eq!(rt; settlement.link(1), Err(Refusal::NoSuchLink));
    Ok(())
}

#[test]
fn a_day_that_cannot_weigh_enough(rt: HostRuntime) -> Result<(), Fail> {
    let days = [Duty::new(&[0])?];
    let mut book = Book::new();
    assert_eq!(rt; book.rule(&days, 1, 1, 1, 1), Ok(1));
    let settlement = settle(&days, &book);
    let up = Link {
        limit: Limit::Heaviest(1),
        from: Mark(0),
        to: Mark(1),
        allowance: 0,
    };
    let down = Link {
        limit: Limit::Least(1),
        from: Mark(1),
        to: Mark(0),
        allowance: -1,
    };
    let chain = (settlement.link(1), settlement.link(2));
    assert_eq!(rt;
        chain == (Ok(up), Ok(down)) || chain == (Ok(down), Ok(up)),
        true
    );
    for k in [0, 3, u32::MAX] {
        assert_eq!(rt; settlement.link(k), Err(Refusal::NoSuchLink));
    }
    assert_eq!(rt; settlement.possible(1, 0), Ok(false));
    assert_eq!(rt; settlement.possible(2, 64), Err(Refusal::NoSuchDay));
    assert_eq!(rt; settlement.possible(1, 2), Err(Refusal::UnknownCode));
    assert_eq!(rt; settlement.lean(&mut []), Err(Refusal::BlockedPlan));
    let mut list = [7u8; 1];
    assert_eq!(rt; settlement.full(&mut list), Err(Refusal::BlockedPlan));
    assert_eq!(rt; list, [7]);
    Ok(())
}

// Two rules that four boxes a day cannot both meet, until the second one is made again with less.
#[test]
fn three_days_of_boxes(rt: HostRuntime) -> Result<(), Fail> {
    let mut days = [Boxes::new(1, 4)?; 3];
    let mut book = Book::new();
    assert_eq!(rt; book.rule(&days, 1, 2, 2, 3), Ok(1));
    assert_eq!(rt; book.rule(&days, 2, 3, 7, 8), Ok(2));
    let blocked = settle(&days, &book);
    let chain = [
        blocked.link(1)?,
        blocked.link(2)?,
        blocked.link(3)?,
        blocked.link(4)?,
    ];
    let mut sum = 0i32;
    for (place, link) in chain.iter().enumerate() {
        assert_eq!(rt; link.to, chain[(place + 1) % 4].from);
        sum = sum.wrapping_add(i32::from(link.allowance));
    }
    assert_eq!(rt; sum, -1);
    assert_eq!(rt; blocked.link(5), Err(Refusal::NoSuchLink));
    let calls = [
        Call::Settle,
        Call::Withdraw { number: 9 },
        Call::Withdraw { number: 2 },
        Call::Rule {
            first: 2,
            last: 3,
            least: 5,
            most: 8,
        },
        Call::Strike { day: 2, code: 1 },
        Call::Grant { day: 3, code: 9 },
    ];
    let agreed = settle_after(&mut days, &mut book, &calls);
    let mut list = [0u8; 4];
    assert_eq!(rt; agreed.lean(&mut list), Ok(()));
    assert_eq!(rt; list, [1, 2, 3, 0]);
    assert_eq!(rt; agreed.full(&mut list), Ok(()));
    assert_eq!(rt; list, [1, 2, 4, 0]);
    Ok(())
}

// The row of a refused settlement and those of the question, in the order of the table.
#[test]
fn refused_settlements(rt: HostRuntime) -> Result<(), Fail> {
    let either = Duty::new(&[0, 1])?;
    let empty = Duty::new(&[])?;
    let mut book = Book::new();
    assert_eq!(rt; book.slide(&[either; 3], 2, 0, 2), Ok(Some((1, 2))));
    let many = [empty; 129];
    let first = settle(&many, &book);
    assert_eq!(rt; first.possible(0, 64), Err(Refusal::TooManyDays));
    assert_eq!(rt; first.link(0), Err(Refusal::TooManyDays));
    let days = [either, empty];
    let second = settle(&days, &book);
    assert_eq!(rt; second.possible(0, 64), Err(Refusal::EmptyDay(2)));
    let mut list = [7u8; 2];
    assert_eq!(rt; second.lean(&mut list), Err(Refusal::EmptyDay(2)));
    assert_eq!(rt; list, [7, 7]);
    let eighth = settle(&days[..1], &book);
    assert_eq!(rt; eighth.possible(0, 64), Err(Refusal::NoSuchDay));
    assert_eq!(rt; eighth.possible(1, 64), Err(Refusal::RulePastDays(1)));
    assert_eq!(rt; eighth.full(&mut []), Err(Refusal::RulePastDays(1)));
    assert_eq!(rt; eighth.link(0), Err(Refusal::RulePastDays(1)));
    assert_eq!(rt; book.withdraw(1), Ok(()));
    let again = settle(&days[..1], &book);
    assert_eq!(rt; again.link(1), Err(Refusal::RulePastDays(2)));
    Ok(())
}

#[test]
fn lists_too_short(rt: HostRuntime) -> Result<(), Fail> {
    let days = seven_days()?;
    let book = Book::new();
    let settlement = settle(&days, &book);
    let mut list = [8u8; 6];
    assert_eq!(rt; settlement.lean(&mut list), Err(Refusal::WrongLength));
    assert_eq!(rt; settlement.full(&mut list), Err(Refusal::WrongLength));
    assert_eq!(rt; list, [8; 6]);
    for k in [0, 1] {
        assert_eq!(rt; settlement.link(k), Err(Refusal::NoSuchLink));
    }
    Ok(())
}

// The largest plan, held to its very most by one rule.
#[test]
fn as_many_days_and_as_much_as_can_be(rt: HostRuntime) -> Result<(), Fail> {
    let days = [Boxes::new(0, 63)?; 128];
    let mut book = Book::new();
    assert_eq!(rt; book.rule(&days, 1, 128, 8064, 8064), Ok(1));
    let settlement = settle(&days, &book);
    assert_eq!(rt; matches!(settlement.verdict(), Verdict::Agreed(_)), true);
    let mut list = [0u8; 128];
    assert_eq!(rt; settlement.lean(&mut list), Ok(()));
    assert_eq!(rt; list, [63; 128]);
    assert_eq!(rt; settlement.possible(128, 63), Ok(true));
    assert_eq!(rt; settlement.possible(128, 62), Ok(false));
    assert_eq!(rt; settlement.possible(129, 63), Err(Refusal::NoSuchDay));
    Ok(())
}
