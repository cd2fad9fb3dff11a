ghost use Rattle.std.specs.Prelude.{◌≡◌, ◌+◌, ◌-◌, ◌*◌, ◌<◌, ◌≤◌, false, List, [], ◌∷◌, ◌++◌, length, is_ok, nat_lt, if◌then◌else◌};
ghost use Rattle.entry.specs.declared.refusal.Refusal.TheVariants.{BookFull};

use crate::days::day_count;
use crate::places::counted_from_one;
use crate::rule::Rule;
use bounded::Bounded;
use entry::refusal::Refusal;
use entry::traits::Entry;
use std::marker::Model;

// A book has room for so many rules over its whole life.
const ROOM: usize = 512;

// The rules made so far, in the order of their numbers, withdrawn ones included.
#[derive(Drop)]
pub struct Book {
    rules: Bounded<Rule, ROOM>,
}

// Clauses see the list of the rules.
impl Model for Book {
    ghost use Rattle.std.specs.Prelude.{List};
    ghost use Rattle.ledger.specs.declared.rule.Rule.{Rule};
    ghost use Rattle.ledger.specs.Rules.{Bounds};

    ghost Value = { List Rule };

    ghost view = { λ book. book.rules };

    ghost invariant = { λ book. Bounds book.rules };
}

impl Book {
    ghost use Rattle.entry.specs.Cells.{Meaning};
    ghost use Rattle.entry.specs.Refusals.{told};
    ghost use Rattle.ledger.specs.declared.call.Call.TheVariants as calls;
    ghost use Rattle.ledger.specs.Edits.{EditsBook};
    ghost use Rattle.ledger.specs.Ledgers.{Kind, numbered, ranging, done, reply, after, failing, ends_within};
    ghost use Rattle.ledger.specs.Rules.{Within, Bounds, windows, stands, withdrawn};

    // The book of a new plan.
    pub fn new() -> Book
        ensures { result ≡ [] }
    {
        let filler = Rule::made(0, 0, 0, 0).ended();
        Book {
            rules: Bounded::new(filler),
        }
    }

    // The rules in the order of their numbers, which count from 1.
    pub fn rules(&self) -> &[Rule]
        ensures rules { result.now ≡ self.now }
        ensures bounds { Bounds result.now }
        ensures room { length result.now ≤ 512 }
    {
        self.rules.as_slice()
    }

    // The smallest number of a rule in force that ends past the days.
    pub fn past_days(&self, days: u32) -> Option<u32>
        ensures answer { result ≡ failing (ends_within days) self.now }
        ensures bounds { Bounds self.now }
    {
        let rules = self.rules();
        counted_from_one(rules.iter().position(|rule| !rule.ends_within(days)))
    }

    // Makes one rule, in force at once. The answer is its number.
    pub fn rule<E: Entry>(
        &mut self,
        entries: &[E],
        first: u32,
        last: u32,
        least: u32,
        most: u32,
    ) -> Result<u32, Refusal>
        ensures { EditsBook E.Entry (calls.Rule first last least most) numbered entries.now self.old result self.new }
    {
        let days = day_count(entries)?;
        if first == 0 || last < first || days < last {
            return Err(Refusal::BadWindow);
        }
        let rule = Rule::made(first, last, least, most);
        if rule.has_bad_count::<E>() {
            return Err(Refusal::BadCount);
        }
        let count = self.count_before(1)?;
        self.add::<E>(rule);
        Ok(count + 1)
    }

    // Adds a rule for every window of `width` days, all or none, and answers the first and the last new number.
    pub fn slide<E: Entry>(
        &mut self,
        entries: &[E],
        width: u32,
        least: u32,
        most: u32,
    ) -> Result<Option<(u32, u32)>, Refusal>
        ensures { EditsBook E.Entry (calls.Slide width least most) ranging entries.now self.old result self.new }
    {
        let days = day_count(entries)?;
        if width == 0 {
            return Err(Refusal::BadWindow);
        }
        let window = Rule::made(1, width, least, most);
        if window.has_bad_count::<E>() {
            return Err(Refusal::BadCount);
        }
        let more = (days + 1).saturating_sub(width);
        let count = self.count_before(more)?;
        self.add_windows::<E>(more, window);
        if more == 0 {
            return Ok(None);
        }
        Ok(Some((count + 1, count + more)))
    }

    // Ends a rule. It stays at its number.
    pub fn withdraw(&mut self, number: u32) -> Result<(), Refusal>
        ensures answer { (kind : Kind) (days : List Meaning) → told (λ _. done) result ≡ reply (record { kind = kind; days = days; rules = self.old }) (calls.Withdraw number) }
        ensures after { (kind : Kind) (days : List Meaning) → record { kind = kind; days = days; rules = self.new } ≡ after (record { kind = kind; days = days; rules = self.old }) (calls.Withdraw number) }
        ensures kept { is_ok result ≡ false → self.new ≡ self.old }
    {
        let at = self.place_of(number).ok_or(Refusal::NoSuchRule)?;
        self.end(at);
        Ok(())
    }

    // Where the rule in force with the number stands.
    fn place_of(&self, number: u32) -> Option<usize>
        ensures { result ≡ (if stands self.now number then Some (number - 1) else None) }
    {
        let at = (number as usize).checked_sub(1)?;
        let rule = self.rules().get(at)?;
        rule.in_force.then_some(at)
    }

    // How many rules there are, where the book has room for so many more.
    fn count_before(&self, more: u32) -> Result<u32, Refusal>
        ensures { result ≡ (if nat_lt 512 (length self.now + more) then Err BookFull else Ok (length self.now)) }
    {
        let count = self.rules.len();
        if more as usize > ROOM - count {
            return Err(Refusal::BookFull);
        }
        Ok(count as u32)
    }

    // The callers have seen to it that there is room.
    fn add<E: Entry>(&mut self, rule: Rule)
        requires { (length self.old < 512) × Within 128 E.TOP rule }
        ensures { self.new ≡ self.old ++ (rule ∷ []) }
    {
        let _ = self.rules.push(rule);
    }

    // One window after another, each a day later than the one before. The callers have seen to it that there is room.
    fn add_windows<E: Entry>(&mut self, count: u32, window: Rule)
        requires { (length self.old + count ≤ 512) × (1 ≤ window.last) × ((count ≡ 0 → ⊥) → count + window.last ≤ 129) × (window.least ≤ window.most) × (window.most ≤ E.TOP * window.last) }
        ensures { self.new ≡ self.old ++ windows count window.last window.least window.most }
    {
        for later in 0..count {
            self.add::<E>(Rule::made(later + 1, later + window.last, window.least, window.most));
        }
    }

    // Nothing but the flag changes, and the rule stays at its place.
    fn end(&mut self, at: usize)
        requires { at < length self.old }
        ensures { self.new ≡ withdrawn self.old (at + 1) }
    {
        let rule = self.rules()[at].ended();
        let _ = self.rules.set(at, rule);
    }
}
