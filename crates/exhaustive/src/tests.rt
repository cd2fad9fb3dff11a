// Wrong answers, which the comparisons have to tell, beside right ones. The plans and what is right of them are examples of the
// rules.

use crate::answer::Answer;
use crate::calls::Call;
use crate::compare::{
    FILLER, compare, compare_check, compare_entries, compare_links, compare_list, compare_rules,
    compare_verdict,
};
use crate::difference::{Asked, Difference, Flaw, Side};
use crate::links::{Unsound, why_unsound};
use crate::model::{Day, Kind, Ledger, Start};
use crate::outcome::Outcome;
use bounded::Bounded;
use codes::set::CodeSet;
use entry::refusal::Refusal;
use kinds::boxes::Boxes;
use kinds::collection::Collection;
use ledger::book::Book;
use limits::link::{Limit, Link, Mark};
use roster::finding::Finding;
use settlement::verdict::{Agreement, Verdict};
use std::alloc::{AllocError, Global};

// Seven days of duty, and a slide over them.
fn week(alloc: Global) -> anyhow::Result<Ledger> {
    let mut ledger = Ledger::new(alloc, Kind::Duty);
    for codes in [[1, 1], [1, 1], [0, 1], [0, 1], [0, 1], [0, 0], [0, 1]] {
        let start = Start::Duty {
            codes: codes.to_vec(alloc)?,
        };
        ledger.days.push(Day::opened(&start))?;
    }
    let slide = Call::Slide {
        width: 5,
        least: 2,
        most: 3,
    };
    ledger.work(slide, 7)?;
    Ok(ledger)
}

fn collection(alloc: Global, codes: &[u32], counts: &[u32]) -> Result<Day, AllocError> {
    Ok(Day::opened(&Start::Collection {
        codes: codes.to_vec(alloc)?,
        counts: counts.to_vec(alloc)?,
    }))
}

// Three days of 1 to 4 boxes, of which the first two weigh 2 to 3 together, and the last two from `least` to 8: with 7 no roster
// is lawful, and with 6 one alone.
fn boxes(alloc: Global, least: u32) -> anyhow::Result<Ledger> {
    let mut ledger = Ledger::new(alloc, Kind::Boxes);
    for _ in 0..3 {
        ledger
            .days
            .push(Day::opened(&Start::Boxes { low: 1, high: 4 }))?;
    }
    for (first, last, least, most) in [(1, 2, 2, 3), (2, 3, least, 8)] {
        let rule = Call::Rule {
            first,
            last,
            least,
            most,
        };
        ledger.work(rule, 3)?;
    }
    Ok(ledger)
}

// Why none is lawful with 7.
fn sound_chain() -> [Link; 4] {
    [
        link(Limit::Most(1), 0, 2, 3),
        link(Limit::Heaviest(3), 2, 3, 4),
        link(Limit::Least(2), 3, 1, -7),
        link(Limit::Lightest(1), 1, 0, -1),
    ]
}

fn link(limit: Limit, from: u8, to: u8, allowance: i16) -> Link {
    Link {
        limit,
        from: Mark(from),
        to: Mark(to),
        allowance,
    }
}

fn is_told(compared: Result<(), Difference>) -> bool {
    compared.is_err()
}

#[test]
fn wrong_answers_to_calls(rt: HostRuntime) {
    let due = Answer::from(Refusal::BadWindow);
    assert_eq!(rt;
        compare(Asked::Call, due, Answer::from(Refusal::BadWindow)),
        Ok(())
    );
    for told in [
        Answer::from(Refusal::BadCount),
        Answer::Rule(1),
        Answer::Done,
    ] {
        assert!(rt; is_told(compare(Asked::Call, due, told)), "{told}");
    }
    let due = Answer::from(Refusal::EmptyDay(2));
    assert!(rt; is_told(compare(Asked::Verdict, due, Answer::from(Refusal::EmptyDay(3)))));
    assert!(rt; is_told(compare(Asked::Call, Answer::Rules(1, 3), Answer::Rules(1, 2))));
    assert!(rt; is_told(compare(Asked::Call, Answer::NoRules, Answer::Done)));
}

#[test]
fn wrong_entries_and_books(rt: HostRuntime) -> anyhow::Result<()> {
    let alloc = rt.alloc();
    let days = [Day::opened(&Start::Boxes { low: 1, high: 4 })];
    assert_eq!(rt; compare_entries(&days, &[Boxes::new(1, 4)?]), Ok(()));
    for (low, high) in [(1, 3), (1, 5), (2, 4), (2, 1)] {
        assert!(rt;
            is_told(compare_entries(&days, &[Boxes::new(low, high)?])),
            "{low} {high}"
        );
    }
    assert_eq!(rt; compare_entries::<Boxes>(&days, &[]), Err(Difference::Days));
    let days = [collection(alloc, &[5, 9], &[9])?];
    assert_eq!(rt;
        compare_entries(&days, &[Collection::new(&[9, 5], &[9])?]),
        Ok(())
    );
    assert!(rt; is_told(compare_entries(&days, &[Collection::new(&[9, 5], &[5])?])));
    let ledger = week(alloc)?;
    let entries = [Collection::new(&[1], &[1])?; 7];
    let mut book = Book::new();
    assert_eq!(rt;
        compare_rules(ledger.rules.as_slice(), book.rules()),
        Err(Difference::Rule(1))
    );
    book.slide(&entries, 5, 2, 3)?;
    assert_eq!(rt;
        compare_rules(ledger.rules.as_slice(), book.rules()),
        Ok(())
    );
    book.withdraw(2)?;
    assert_eq!(rt;
        compare_rules(ledger.rules.as_slice(), book.rules()),
        Err(Difference::Rule(2))
    );
    Ok(())
}

#[test]
fn rosters_that_are_only_lawful(rt: HostRuntime) -> anyhow::Result<()> {
    let ledger = week(rt.alloc())?;
    let outcome = Outcome::of(rt.alloc(), ledger.plan(7))?;
    let lean = [1, 1, 0, 0, 1, 0, 1];
    let full = [1, 1, 1, 0, 0, 0, 1];
    let other = [1, 1, 0, 1, 0, 0, 1];
    for (side, right, wrong, day) in [(Side::Lean, lean, full, 3), (Side::Full, full, lean, 3)] {
        assert_eq!(rt; compare_list(side, &outcome, true, &right), Ok(()));
        let told = Err(Difference::Roster(side, Flaw::Total(day)));
        assert_eq!(rt; compare_list(side, &outcome, true, &wrong), told);
        assert!(rt; is_told(compare_list(side, &outcome, true, &other)));
        assert!(rt; is_told(compare_list(side, &outcome, true, &[0; 7])));
        assert!(rt; is_told(compare_list(side, &outcome, true, &[1, 1, 0])));
    }
    let longer = [1, 1, 0, 0, 1, 0, 1, 0];
    let changed = Err(Difference::List(Side::Lean));
    assert_eq!(rt; compare_list(Side::Lean, &outcome, true, &longer), changed);
    assert_eq!(rt;
        compare_list(Side::Lean, &outcome, false, &[FILLER, 1]),
        changed
    );
    Ok(())
}

#[test]
fn larger_code_of_the_same_weight(rt: HostRuntime) -> anyhow::Result<()> {
    let mut ledger = Ledger::new(rt.alloc(), Kind::Collection);
    ledger
        .days
        .push(collection(rt.alloc(), &[4, 7, 9], &[7, 9])?)?;
    let outcome = Outcome::of(rt.alloc(), ledger.plan(1))?;
    assert_eq!(rt; compare_list(Side::Full, &outcome, true, &[7]), Ok(()));
    let told = Err(Difference::Roster(Side::Full, Flaw::Code(1)));
    assert_eq!(rt; compare_list(Side::Full, &outcome, true, &[9]), told);
    Ok(())
}

#[test]
fn a_possible_code_too_many(rt: HostRuntime) -> anyhow::Result<()> {
    let ledger = week(rt.alloc())?;
    let outcome = Outcome::of(rt.alloc(), ledger.plan(7))?;
    let asked = Asked::Possible { day: 7, code: 0 };
    let due = outcome.possible(7, 0);
    assert_eq!(rt; compare(asked, due, Answer::Possible(false)), Ok(()));
    assert!(rt; is_told(compare(asked, due, Answer::Possible(true))));
    assert!(rt; is_told(compare(asked, outcome.possible(7, 1), Answer::Possible(false))));
    assert!(rt;
        is_told(compare(
            asked,
            outcome.possible(8, 2),
            Answer::from(Refusal::UnknownCode)
        ))
    );
    let mut agreement = Agreement {
        possible: Bounded::new(CodeSet::empty()),
        lean: Bounded::new(0),
        full: Bounded::new(0),
    };
    let [off, on] = [0, 1].map(CodeSet::single);
    for set in [on, on, off | on, off | on, off | on, off, off | on] {
        let _ = agreement.possible.push(set);
    }
    let told = Verdict::Agreed(agreement);
    assert_eq!(rt; compare_verdict(&outcome, &told), Err(Difference::Codes(7)));
    let told = Answer::from(&Verdict::Blocked(Bounded::new(link(Limit::Most(1), 0, 5, 3))));
    assert!(rt; is_told(compare(Asked::Verdict, outcome.verdict(), told)));
    Ok(())
}

#[test]
fn unsound_chains(rt: HostRuntime) -> anyhow::Result<()> {
    let mut ledger = boxes(rt.alloc(), 7)?;
    let sound = sound_chain();
    let [most, heaviest, least, lightest] = sound;
    let plan = ledger.plan(3);
    assert_eq!(rt; why_unsound(&plan, &sound), None);
    let raised = link(Limit::Most(1), 0, 2, 2);
    let turned = link(Limit::Lightest(1), 1, 0, 1);
    let cases = [
        (
            [raised, heaviest, least, lightest].to_vec(rt.alloc())?,
            Unsound::NotInTable(1),
        ),
        (
            [most, heaviest, least, turned].to_vec(rt.alloc())?,
            Unsound::NotInTable(4),
        ),
        (
            [most, least, heaviest, lightest].to_vec(rt.alloc())?,
            Unsound::Apart(1),
        ),
        ([most, heaviest, least].to_vec(rt.alloc())?, Unsound::Open),
        (
            [
                most, heaviest, least, lightest, most, heaviest, least, lightest,
            ]
            .to_vec(rt.alloc())?,
            Unsound::TooLong,
        ),
        (Vec::new(rt.alloc()), Unsound::NotNegative),
    ];
    for (chain, why) in &cases {
        assert_eq!(rt; why_unsound(&plan, chain.as_slice()), Some(*why));
    }
    ledger.work(Call::Withdraw { number: 2 }, 3)?;
    let plan = ledger.plan(3);
    assert_eq!(rt; why_unsound(&plan, &sound), Some(Unsound::NotInTable(3)));
    Ok(())
}

#[test]
fn links_of_no_chain(rt: HostRuntime) -> anyhow::Result<()> {
    let sound = sound_chain();
    let [most, heaviest, least, lightest] = sound;
    let mut chain = Bounded::new(most);
    for link in sound {
        let _ = chain.push(link);
    }
    let told = Verdict::Blocked(chain);
    let ledger = boxes(rt.alloc(), 7)?;
    let outcome = Outcome::of(rt.alloc(), ledger.plan(3))?;
    assert_eq!(rt; compare_verdict(&outcome, &told), Ok(()));
    assert_eq!(rt; compare_links(&told, &sound), Ok(()));
    assert!(rt; is_told(compare_links(&told, &[most, heaviest, least])));
    assert!(rt; is_told(compare_links(&Verdict::Refused(Refusal::EmptyDay(1)), &[lightest])));
    // With 6 for 7 the sum is 0, and the plan agreed.
    let ledger = boxes(rt.alloc(), 6)?;
    let six = [most, heaviest, link(Limit::Least(2), 3, 1, -6), lightest];
    assert_eq!(rt;
        why_unsound(&ledger.plan(3), &six),
        Some(Unsound::NotNegative)
    );
    let outcome = Outcome::of(rt.alloc(), ledger.plan(3))?;
    assert!(rt; is_told(compare_verdict(&outcome, &told)));
    assert_eq!(rt;
        compare_list(Side::Lean, &outcome, true, &[1, 2, 4]),
        Ok(())
    );
    Ok(())
}

#[test]
fn wrong_findings_of_checks(rt: HostRuntime) -> anyhow::Result<()> {
    let ledger = week(rt.alloc())?;
    let plan = ledger.plan(7);
    let broken = |rule, stretch| Ok(Finding::Broken {
        rule,
        first: rule,
        last: 7,
        stretch,
    });
    let roster = [1, 1, 0, 0, 1, 0, 0];
    assert_eq!(rt;
        compare_check(&plan, &roster, broken(3, &[0, 0, 1, 0, 0])),
        Ok(())
    );
    let shorter = broken(3, &[0, 0, 1, 0]);
    assert_eq!(rt;
        compare_check(&plan, &roster, shorter),
        Err(Difference::Stretch)
    );
    assert!(rt; is_told(compare_check(&plan, &roster, broken(2, &[0, 0, 1, 0, 0]))));
    assert!(rt; is_told(compare_check(&plan, &roster, Ok(Finding::Lawful))));
    assert!(rt; is_told(compare_check(&plan, &roster, Err(Refusal::WrongLength))));
    let roster = [1, 1, 0, 0, 1, 1, 5];
    assert_eq!(rt;
        compare_check(&plan, &roster, Ok(Finding::NotHeld { day: 6 })),
        Ok(())
    );
    assert!(rt; is_told(compare_check(&plan, &roster, Ok(Finding::NotHeld { day: 7 }))));
    assert!(rt; is_told(compare_check(&plan, &[], Ok(Finding::NotHeld { day: 1 }))));
    Ok(())
}

#[test]
fn calls_as_in_the_rules(rt: HostRuntime) -> anyhow::Result<()> {
    let mut ledger = week(rt.alloc())?;
    let slide = |width, most| Call::Slide {
        width,
        least: 0,
        most,
    };
    let refused = |refusal| Answer::from(refusal);
    let withdraw = Call::Withdraw { number: 2 };
    for (call, due) in [
        (slide(7, 7), Answer::Rules(4, 4)),
        (slide(8, 8), Answer::NoRules),
        (slide(8, 9), refused(Refusal::BadCount)),
        (withdraw, Answer::Done),
        (withdraw, refused(Refusal::NoSuchRule)),
    ] {
        assert_eq!(rt; ledger.work(call, 7)?, due, "{call}");
    }
    let mut ledger = boxes(rt.alloc(), 7)?;
    for (code, due) in [
        (3, refused(Refusal::WeightGap)),
        (9, Answer::Done),
        (4, Answer::Done),
        (1, Answer::Done),
        (3, Answer::Done),
        (2, refused(Refusal::OnlyCode)),
        (64, refused(Refusal::UnknownCode)),
    ] {
        assert_eq!(rt;
            ledger.work(Call::Strike { day: 2, code }, 3)?,
            due,
            "{code}"
        );
    }
    Ok(())
}
