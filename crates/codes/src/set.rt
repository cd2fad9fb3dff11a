ghost use Rattle.std.specs.Prelude.{◌≡◌, ℕ, ◌<◌, ◌≤◌, true, false, not, ◌&&◌, ◌||◌, [], ◌∷◌, length, IsTrue, ◌↔◌, MatchOption, ◌==◌, nat_lt};
ghost use Rattle.std.specs.List.{slice_get};
ghost use Rattle.codes.specs.Coming.{coming};
ghost use Rattle.codes.specs.Members.{member, members, Listing};
ghost use Rattle.codes.specs.Words.{WordOf, Union, Difference};

use crate::iter::Codes;
use std::ops::{BitAnd, BitOr, Sub};

// A set of codes: bit c of the word says whether it has code c. A code above 63 is in no set.
#[derive(Clone, Copy, PartialEq, Eq, Debug)]
pub struct CodeSet(u64);

impl CodeSet {
    pub fn empty() -> CodeSet
        ensures { (c : ℕ) → member result c ≡ false }
    {
        CodeSet::from_bits(0)
    }

    // The set of `code` alone, and the empty set for a code above 63.
    pub fn single(code: u32) -> CodeSet
        ensures { (c : ℕ) → member result c ≡ (nat_lt c 64 && c == code) }
    {
        if code < 64 {
            CodeSet(1 << code)
        } else {
            CodeSet::empty()
        }
    }

    pub fn contains(self, code: u32) -> bool
        ensures answer { result ≡ member self code }
        ensures below { result ≡ true → code < 64 }
    {
        let word = self.bits();
        code < 64 && (word >> code) % 2 == 1
    }

    // A code above 63 changes nothing, nor does one that is in the set.
    pub fn with(self, code: u32) -> CodeSet
        ensures each { (c : ℕ) → member result c ≡ (member self c || (nat_lt c 64 && c == code)) }
        ensures above { 64 ≤ code → result ≡ self }
        ensures held { member self code ≡ true → result ≡ self }
    {
        self | CodeSet::single(code)
    }

    // A code that is not in the set changes nothing.
    pub fn without(self, code: u32) -> CodeSet
        ensures each { (c : ℕ) → member result c ≡ (member self c && not (c == code)) }
        ensures absent { member self code ≡ false → result ≡ self }
    {
        self - CodeSet::single(code)
    }

    pub fn intersection(self, other: CodeSet) -> CodeSet
        ensures { (c : ℕ) → member result c ≡ (member self c && member other c) }
    {
        self & other
    }

    pub fn difference(self, other: CodeSet) -> CodeSet
        ensures { (c : ℕ) → member result c ≡ (member self c && not (member other c)) }
    {
        self - other
    }

    pub fn is_empty(self) -> bool
        ensures none { IsTrue result ↔ ((c : ℕ) → member self c ≡ false) }
        ensures nil { IsTrue result ↔ (members self ≡ []) }
    {
        self.bits() == 0
    }

    pub fn len(self) -> u32
        ensures { result ≡ length (members self) }
    {
        self.bits().count_ones()
    }

    pub fn smallest(self) -> Option<u32>
        ensures first { result ≡ slice_get (members self) 0 }
        ensures least { MatchOption result ((c : ℕ) → member self c ≡ false) (λ x. (member self x ≡ true) × ((c : ℕ) → c < x → member self c ≡ false)) }
    {
        if self.is_empty() {
            None
        } else {
            Some(self.0.trailing_zeros())
        }
    }

    // The codes in rising order, each once.
    pub fn codes(self) -> Codes
        ensures { Listing self (coming result) }
    {
        Codes::over(self)
    }

    // The smallest code, and the set of the others.
    pub(crate) fn split_first(self) -> Option<(u32, CodeSet)>
        ensures { MatchOption result (members self ≡ []) (λ p. members self ≡ p.0 ∷ members p.1) }
    {
        let code = self.smallest()?;
        Some((code, self.without(code)))
    }

    // The set whose word is `bits`.
    fn from_bits(bits: u64) -> CodeSet
        ensures { WordOf result bits }
    {
        CodeSet(bits)
    }

    // The word of the set.
    fn bits(self) -> u64
        ensures { WordOf self result }
    {
        self.0
    }
}

// The set operators, as the standard library's sets have them.
impl BitOr<CodeSet> for CodeSet {
    type Output = CodeSet;

    ghost bitor_gives = { Union };

    #[tactic(auto, using(crate::proofs::Operators::word_or))]
    fn bitor(self, other: CodeSet) -> CodeSet {
        CodeSet(self.0 | other.0)
    }
}

impl BitAnd<CodeSet> for CodeSet {
    type Output = CodeSet;

    ghost bitand_gives = { λ s t r. (c : ℕ) → member r c ≡ (member s c && member t c) };

    #[tactic(auto, using(crate::proofs::Operators::word_and))]
    fn bitand(self, other: CodeSet) -> CodeSet {
        CodeSet(self.0 & other.0)
    }
}

impl Sub<CodeSet> for CodeSet {
    type Output = CodeSet;

    ghost sub_gives = { Difference };

    #[tactic(auto, using(crate::proofs::Operators::word_less))]
    fn sub(self, other: CodeSet) -> CodeSet {
        CodeSet(self.0 & !other.0)
    }
}
