use crate::example::chain_of_boxes;
use chains::judge;
use closure::{Closure, Rise};
use limits::link::{Limit, Link, Mark};
use limits::system::System;
use limits::unfit::Unfit;
use std::test::Fail;

// Days that weigh at the most so much each, and rule 1 over the first of them.
fn days_under_rule(days: u32, heaviest: u32, last: u32, least: u32) -> Result<System, Unfit> {
    let mut system = System::new();
    for _ in 0..days {
        system.add_day(0, heaviest)?;
    }
    system.add_rule(1, 1, last, least, 8064)?;
    Ok(system)
}

// On duty on days 1 and 2, off on day 6, and two or three times in any five days.
fn week() -> Result<System, Unfit> {
    let mut system = System::new();
    for (lightest, heaviest) in [(1, 1), (1, 1), (0, 1), (0, 1), (0, 1), (0, 0), (0, 1)] {
        system.add_day(lightest, heaviest)?;
    }
    for first in [1, 2, 3] {
        system.add_rule(first, first, first + 4, 2, 3)?;
    }
    Ok(system)
}

fn link(limit: Limit, from: u8, to: u8, allowance: i16) -> Link {
    Link {
        limit,
        from: Mark(from),
        to: Mark(to),
        allowance,
    }
}

fn is_blocked_by(system: &System, expected: &[Link]) -> bool {
    match judge(system) {
        Ok(_) => false,
        Err(chain) => chain.as_slice() == expected,
    }
}

// Whether these are the smallest and the largest totals.
fn has_totals(system: &System, smallest: &[i16], largest: &[i16]) -> bool {
    match judge(system) {
        Err(_) => false,
        Ok(agreed) => {
            let closure = Closure::of(&agreed);
            closure.smallest().as_slice() == smallest && closure.largest().as_slice() == largest
        }
    }
}

fn rise(system: &System, from: u8, to: u8) -> Option<Rise> {
    let agreed = judge(system).ok()?;
    Closure::of(&agreed).rise(Mark(from), Mark(to))
}

#[test]
fn links_of_a_plan(rt: HostRuntime) -> Result<(), Fail> {
    let mut system = System::new();
    system.add_day(2, 5)?;
    system.add_day(0, 63)?;
    system.add_rule(9, 1, 2, 7, 8)?;
    let links = [
        link(Limit::Heaviest(1), 0, 1, 5),
        link(Limit::Lightest(1), 1, 0, -2),
        link(Limit::Heaviest(2), 1, 2, 63),
        link(Limit::Lightest(2), 2, 1, 0),
        link(Limit::Most(9), 0, 2, 8),
        link(Limit::Least(9), 2, 0, -7),
    ];
    assert_eq!(rt; system.links(), &links[..]);
    assert_eq!(rt; system.lightest(), &[0, 2, 2][..]);
    assert_eq!(rt; system.heaviest(), &[0, 5, 68][..]);
    Ok(())
}

#[test]
fn what_does_not_fit(rt: HostRuntime) -> Result<(), Fail> {
    let mut system = System::new();
    assert_eq!(rt; system.add_day(0, 64), Err(Unfit));
    assert_eq!(rt; system.add_day(64, 0), Err(Unfit));
    for _ in 0..128u32 {
        system.add_day(63, 63)?;
    }
    assert_eq!(rt; system.add_day(0, 0), Err(Unfit));
    for (first, last, least, most) in [
        (0, 1, 0, 0),
        (2, 1, 0, 0),
        (1, 129, 0, 0),
        (1, 1, 8065, 0),
        (1, 1, 0, 8065),
        (u32::MAX, u32::MAX, u32::MAX, u32::MAX),
    ] {
        assert_eq!(rt; system.add_rule(1, first, last, least, most), Err(Unfit));
    }
    for number in 0..512 {
        system.add_rule(number, 1, 128, 8064, 8064)?;
    }
    assert_eq!(rt; system.add_rule(513, 1, 1, 0, 0), Err(Unfit));
    assert_eq!(rt; system.links().len(), 1280);
    Ok(())
}

// A system of one day has room for 639 rules, and then for no other day.
#[test]
fn links_run_out(rt: HostRuntime) -> Result<(), Fail> {
    let mut system = System::new();
    system.add_day(1, 2)?;
    for number in 1..=639 {
        system.add_rule(number, 1, 1, 0, 8064)?;
    }
    assert_eq!(rt; system.add_day(1, 2), Err(Unfit));
    assert_eq!(rt; system.links().len(), 1280);
    assert_eq!(rt; system.lightest(), &[0, 1][..]);
    assert_eq!(rt; system.heaviest(), &[0, 2][..]);
    Ok(())
}

#[test]
fn agreed(rt: HostRuntime) -> Result<(), Fail> {
    assert!(rt; has_totals(&System::new(), &[0], &[0]));
    assert!(rt; has_totals(&days_under_rule(1, 5, 1, 3)?, &[0, 3], &[0, 5]));
    assert!(rt; has_totals(&days_under_rule(3, 1, 3, 3)?, &[0, 1, 2, 3], &[0, 1, 2, 3]));
    let smallest = [0, 1, 2, 2, 2, 3, 3, 4];
    let largest = [0, 1, 2, 3, 3, 3, 3, 4];
    assert!(rt; has_totals(&week()?, &smallest, &largest));
    Ok(())
}

// The day weighs 0, and the rule asks for 1.
#[test]
fn one_day_of_weight_0(rt: HostRuntime) -> Result<(), Fail> {
    let chain = [
        link(Limit::Least(1), 1, 0, -1),
        link(Limit::Heaviest(1), 0, 1, 0),
    ];
    assert!(rt; is_blocked_by(&days_under_rule(1, 0, 1, 1)?, &chain));
    Ok(())
}

// All marks are on the chain.
#[test]
fn a_link_for_each_mark(rt: HostRuntime) -> Result<(), Fail> {
    let chain = [
        link(Limit::Least(1), 3, 0, -4),
        link(Limit::Heaviest(1), 0, 1, 1),
        link(Limit::Heaviest(2), 1, 2, 1),
        link(Limit::Heaviest(3), 2, 3, 1),
    ];
    assert!(rt; is_blocked_by(&days_under_rule(3, 1, 3, 4)?, &chain));
    match judge(&days_under_rule(128, 1, 128, 129)?) {
        Ok(_) => assert!(rt; false),
        Err(chain) => assert_eq!(rt; chain.len(), 129),
    }
    Ok(())
}

// The walk back goes round twice, by the marks 1, 0, 1, 0 and 1.
#[test]
fn a_walk_round_twice(rt: HostRuntime) -> Result<(), Fail> {
    let chain = [
        link(Limit::Least(1), 1, 0, -2),
        link(Limit::Heaviest(1), 0, 1, 1),
    ];
    assert!(rt; is_blocked_by(&days_under_rule(3, 1, 1, 2)?, &chain));
    Ok(())
}

// The walk back ends on the way round: its first link is in no chain.
#[test]
fn a_walk_with_an_end(rt: HostRuntime) -> Result<(), Fail> {
    let mut system = System::new();
    system.add_day(0, 0)?;
    system.add_day(0, 0)?;
    system.add_rule(1, 1, 1, 3, 8064)?;
    system.add_rule(2, 1, 2, 4, 8064)?;
    let chain = [
        link(Limit::Heaviest(1), 0, 1, 0),
        link(Limit::Least(1), 1, 0, -3),
    ];
    assert!(rt; is_blocked_by(&system, &chain));
    Ok(())
}

// Bounds that leave nothing between them are taken, and block.
#[test]
fn crossed_bounds(rt: HostRuntime) -> Result<(), Fail> {
    let mut day = System::new();
    day.add_day(5, 3)?;
    let crossed_day = [
        link(Limit::Heaviest(1), 0, 1, 3),
        link(Limit::Lightest(1), 1, 0, -5),
    ];
    assert!(rt; is_blocked_by(&day, &crossed_day));
    let mut rule = System::new();
    rule.add_day(0, 9)?;
    rule.add_rule(1, 1, 1, 8, 6)?;
    let crossed_rule = [
        link(Limit::Least(1), 1, 0, -8),
        link(Limit::Most(1), 0, 1, 6),
    ];
    assert!(rt; is_blocked_by(&rule, &crossed_rule));
    Ok(())
}

#[test]
fn rises(rt: HostRuntime) -> Result<(), Fail> {
    let week = week()?;
    assert_eq!(rt; rise(&week, 6, 7), Some(Rise { least: 1, most: 1 }));
    assert_eq!(rt; rise(&week, 2, 3), Some(Rise { least: 0, most: 1 }));
    assert_eq!(rt;
        rise(&week, 7, 6),
        Some(Rise {
            least: -1,
            most: -1
        })
    );
    assert_eq!(rt; rise(&week, 4, 4), Some(Rise { least: 0, most: 0 }));
    assert_eq!(rt; rise(&week, 7, 8), None);
    assert_eq!(rt; rise(&week, 255, 0), None);
    let none = Some(Rise { least: 0, most: 0 });
    assert_eq!(rt; rise(&System::new(), 0, 0), none);
    assert_eq!(rt; rise(&System::new(), 0, 1), None);
    Ok(())
}

// Every allowance is as large as it can be, either way.
#[test]
fn largest_allowances(rt: HostRuntime) -> Result<(), Fail> {
    let full = days_under_rule(128, 63, 128, 8064)?;
    let up = Rise {
        least: 8064,
        most: 8064,
    };
    let down = Rise {
        least: -8064,
        most: -8064,
    };
    assert_eq!(rt; rise(&full, 0, 128), Some(up));
    assert_eq!(rt; rise(&full, 128, 0), Some(down));
    Ok(())
}

// The first two days of boxes are too few to leave seven for the last two.
#[test]
fn boxes_that_are_blocked(rt: HostRuntime) -> Result<(), Fail> {
    let mut system = System::new();
    for _ in 0..3u32 {
        system.add_day(1, 4)?;
    }
    system.add_rule(1, 1, 2, 2, 3)?;
    system.add_rule(2, 2, 3, 7, 8)?;
    match judge(&system) {
        Ok(_) => assert!(rt; false),
        Err(chain) => {
            assert_eq!(rt; chain.len(), 4);
            for link in chain_of_boxes() {
                assert!(rt; chain.as_slice().contains(&link));
            }
        }
    }
    Ok(())
}
