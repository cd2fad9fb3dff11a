ghost use Rattle.std.specs.Prelude.{◌≡◌, ℕ};
ghost use Rattle.codes.specs.Members.{member};

use crate::set::CodeSet;

// The same set, made again from its codes one by one.
fn rebuilt(set: CodeSet) -> CodeSet
    ensures { (c : ℕ) → member result c ≡ member set c }
{
    let mut all = CodeSet::empty();
    for code in set.codes() {
        all = all.with(code);
    }
    all
}

#[test]
fn no_code_above_63(rt: HostRuntime) {
    let set = CodeSet::single(0).with(5).with(63);
    for code in [64, u32::MAX] {
        assert_eq!(rt; CodeSet::single(code), CodeSet::empty());
        assert_eq!(rt; set.with(code), set);
        assert_eq!(rt; set.without(code), set);
        assert!(rt; !set.contains(code));
    }
}

#[test]
fn all_or_none(rt: HostRuntime) {
    let empty = CodeSet::empty();
    let mut full = empty;
    for code in 0..64 {
        full = full.with(code);
    }
    assert_eq!(rt; (full.len(), full.smallest()), (64, Some(0)));
    assert_eq!(rt; (empty.len(), empty.smallest()), (0, None));
    assert!(rt; full.contains(63) && !full.is_empty() && empty.is_empty());
    assert_eq!(rt; full.intersection(full), full);
    assert_eq!(rt; full.difference(full), empty);
}

#[test]
fn codes_rise(rt: HostRuntime) {
    let set = CodeSet::single(63).with(0).with(5);
    let mut codes = set.codes();
    assert_eq!(rt; codes.next(), Some(0));
    assert_eq!(rt; codes.next(), Some(5));
    assert_eq!(rt; codes.next(), Some(63));
    assert_eq!(rt; codes.next(), None);
    assert_eq!(rt; codes.next(), None);
    assert_eq!(rt; rebuilt(set), set);
}
