ghost use Rattle.std.specs.Prelude.{◌≡◌, ◌≤◌, true, map, length, None, Ok};
ghost use Rattle.std.specs.List.{zip};
ghost use Rattle.ledger.specs.Ledgers.{failing, ends_within};

use crate::finding::Finding;
use crate::stretches::{stretch, weight_of};
use entry::traits::Entry;
use ledger::book::Book;
use ledger::places::counted_from_one;
use ledger::rule::Rule;

// A plan, whose rules in force end within its days, and for each of the days a code.
#[derive(Drop)]
pub(crate) struct Assignment<'p, 'r, E> {
    pub(crate) entries: &'p [E],
    pub(crate) book: &'p Book,
    pub(crate) roster: &'r [u8],
    ghost few: { length entries.now ≤ 128 },
    ghost within: { failing (ends_within (length entries.now)) book.now ≡ None },
    ghost matched: { length roster.now ≡ length entries.now },
}

impl<'p, 'r, E: Entry> Assignment<'p, 'r, E> {
    ghost use Rattle.ledger.specs.Ledgers.{ledger};
    ghost use Rattle.ledger.specs.Rosters.{holds_its_code, keeps};
    ghost use Rattle.ledger.specs.Rules.{Within};
    ghost use Rattle.roster.specs.Findings.{shown, verdict, Found};

    // The first fault: all days are looked at before any rule.
    pub(crate) fn first_fault(&self) -> Finding<'r>
        ensures shown { shown result ≡ verdict (ledger E.Entry self.now.entries.now self.now.book.now) self.now.roster.now }
        ensures found { Found (ledger E.Entry self.now.entries.now self.now.book.now) self.now.roster.now (Ok result) }
    {
        if let Some(day) = self.first_not_held() {
            return Finding::NotHeld { day };
        }
        let Some(number) = self.first_broken() else {
            return Finding::Lawful;
        };
        let rule = self.book.rules()[number as usize - 1];
        Finding::Broken {
            rule: number,
            first: rule.first,
            last: rule.last,
            stretch: stretch(rule, self.roster),
        }
    }

    // The first day whose entry does not hold its code.
    fn first_not_held(&self) -> Option<u32>
        ensures { result ≡ failing holds_its_code (zip (map E.meaning self.now.entries.now) self.now.roster.now) }
    {
        let mut days = self.entries.iter().zip(self.roster);
        counted_from_one(days.position(|(entry, code)| !entry.holds(u32::from(*code))))
    }

    // The smallest number of a broken rule.
    fn first_broken(&self) -> Option<u32>
        ensures { result ≡ failing (keeps (map E.meaning self.now.entries.now) self.now.roster.now) self.now.book.now }
    {
        counted_from_one(self.book.rules().iter().position(|rule| !self.keeps(*rule)))
    }

    // Whether the rule is withdrawn, or its stretch weighs from its least to its most.
    #[tactic(auto, using(std::proofs::lemmas::Grind::common_steps, crate::proofs::Meanings::map_stretch))]
    fn keeps(&self, rule: Rule) -> bool
        requires { Within 128 63 rule × (ends_within (length self.now.entries.now) rule ≡ true) }
        ensures { result ≡ keeps (map E.meaning self.now.entries.now) self.now.roster.now rule }
    {
        if !rule.in_force {
            return true;
        }
        let weight = weight_of(stretch(rule, self.entries), stretch(rule, self.roster));
        (rule.least..=rule.most).contains(&weight)
    }
}
