use crate::boxes::Boxes;
use crate::collection::Collection;
use crate::duty::Duty;
use codes::set::CodeSet;
use entry::refusal::Refusal;
use entry::traits::Entry;
use std::test::Fail;

// Holds exactly the codes from low to high.
fn holds_run<E: Entry>(entry: &E, low: u32, high: u32) -> bool {
    (0..70).all(|code| entry.holds(code) == (low <= code && code <= high))
}

// Numbers that no kind knows: every method answers, and nothing changes.
fn unknown<E: Entry>(mut entry: E, code: u32) -> bool {
    let least = entry.lightest();
    let most = entry.heaviest();
    !E::known(code)
        && !entry.holds(code)
        && entry.weight(code) == 0
        && entry.strike(code) == Err(Refusal::UnknownCode)
        && entry.grant(code) == Err(Refusal::UnknownCode)
        && entry.lightest() == least
        && entry.heaviest() == most
}

#[test]
fn beyond_the_codes(rt: HostRuntime) -> Result<(), Fail> {
    for code in [64, 4_294_967_295] {
        assert!(rt; unknown(Duty::new(&[1])?, code));
        assert!(rt; unknown(Collection::new(&[5, 63], &[63])?, code));
        assert!(rt; unknown(Boxes::new(1, 63)?, code));
        assert!(rt; Duty::new(&[0, code]).is_err());
        assert!(rt; Collection::new(&[code], &[]).is_err());
        assert!(rt; Collection::new(&[], &[code]).is_err());
        assert!(rt; Boxes::new(code, 0).is_err());
        assert!(rt; Boxes::new(0, code).is_err());
    }
    Ok(())
}

#[test]
fn ends_of_a_run(rt: HostRuntime) -> Result<(), Fail> {
    let mut boxes = Boxes::new(1, 4)?;
    assert_eq!(rt; boxes.strike(3), Err(Refusal::WeightGap));
    assert!(rt; holds_run(&boxes, 1, 4));
    assert_eq!(rt; boxes.strike(4), Ok(()));
    assert!(rt; holds_run(&boxes, 1, 3));
    let mut one = Boxes::new(3, 3)?;
    assert_eq!(rt; one.strike(3), Err(Refusal::OnlyCode));
    assert_eq!(rt; one.grant(5), Err(Refusal::WeightGap));
    assert!(rt; holds_run(&one, 3, 3));
    assert_eq!(rt; one.grant(4), Ok(()));
    assert!(rt; holds_run(&one, 3, 4));
    Ok(())
}

#[test]
fn empty_entries(rt: HostRuntime) -> Result<(), Fail> {
    let mut boxes = Boxes::new(63, 0)?;
    assert!(rt; holds_run(&boxes, 1, 0));
    assert_eq!(rt; boxes.lightest(), 0);
    assert_eq!(rt; boxes.heaviest(), 0);
    assert_eq!(rt; boxes.strike(5), Ok(()));
    assert_eq!(rt; boxes.grant(50), Ok(()));
    assert!(rt; holds_run(&boxes, 50, 50));
    let mut duty = Duty::new(&[])?;
    assert_eq!(rt; duty.strike(0), Ok(()));
    assert_eq!(rt; duty.grant(1), Ok(()));
    assert!(rt; holds_run(&duty, 1, 1));
    Ok(())
}

#[test]
fn built_from_sets(rt: HostRuntime) -> Result<(), Fail> {
    let on = CodeSet::single(1);
    assert!(rt; holds_run(&Duty::from_set(on.with(0))?, 0, 1));
    assert!(rt; Duty::from_set(on.with(2)).is_err());
    let free = Collection::from_sets(CodeSet::single(63), on);
    assert!(rt; holds_run(&free, 63, 63));
    assert_eq!(rt; (free.weight(1), free.weight(63)), (1, 0));
    Ok(())
}
