ghost use Rattle.std.specs.Prelude.{◌≡◌, ◌+◌, ◌-◌, ◌≤◌, pos, neg_ℤ, [], ◌∷◌, ◌++◌, length, is_ok, if◌then◌else◌};
ghost use Rattle.limits.specs.Links.{link};
ghost use Rattle.limits.specs.Systems.{Small, raised, at_mark};

use crate::link::{Limit, Link, Mark, NO_LINK};
use crate::unfit::Unfit;
use bounded::Bounded;
use std::marker::Model;

// One more than the 128 days that a plan can have.
pub const MARKS: usize = 129;

// Room for two for each of 128 days, and two for each of 512 rules.
const LINKS: usize = 1280;

// No day weighs more than this.
pub const LARGEST_WEIGHT: u32 = 63;

// No sum of days is larger than this.
pub(crate) const LARGEST_SUM: u32 = 8064;

// The links of a plan's days and rules, in the order in which these were added.
#[derive(Drop)]
pub struct System {
    links: Bounded<Link, LINKS>,
    // At each mark, the total where each day weighs its lightest, and where each weighs its heaviest.
    lightest: Bounded<i16, MARKS>,
    heaviest: Bounded<i16, MARKS>,
}

impl Model for System {
    ghost use Rattle.limits.specs.Systems as systems;

    ghost Value = { systems.System };

    ghost view = { λ s. record { links = s.links; lightest = s.lightest; heaviest = s.heaviest } };

    ghost invariant = { λ s. systems.Bounds (record { links = s.links; lightest = s.lightest; heaviest = s.heaviest }) };
}

impl System {
    ghost use Rattle.limits.specs.Systems.{days, no_days, day_fits, with_day, rule_fits, with_rule, Bounds};

    // A plan of no days has mark 0 alone.
    pub fn new() -> System
        ensures { result ≡ no_days }
    {
        System {
            links: Bounded::new(NO_LINK),
            lightest: at_mark_0(),
            heaviest: at_mark_0(),
        }
    }

    pub fn days(&self) -> usize
        ensures answer { result ≡ days self.now }
        ensures room { result ≤ 128 }
    {
        self.lightest.len() - 1
    }

    pub fn links(&self) -> &[Link]
        ensures links { result.now ≡ self.now.links }
        ensures bounds { Bounds self.now }
        ensures room { length result.now ≤ 1280 }
    {
        self.links.as_slice()
    }

    // At each mark, the total where each day weighs its lightest.
    pub fn lightest(&self) -> &[i16]
        ensures totals { result.now ≡ self.now.lightest }
        ensures bounds { Bounds self.now }
    {
        self.lightest.as_slice()
    }

    // At each mark, the total where each day weighs its heaviest.
    pub fn heaviest(&self) -> &[i16]
        ensures totals { result.now ≡ self.now.heaviest }
        ensures bounds { Bounds self.now }
    {
        self.heaviest.as_slice()
    }

    // Adds a day, with the least and the most that it can weigh.
    pub fn add_day(&mut self, lightest: u32, heaviest: u32) -> Result<(), Unfit>
        ensures answer { is_ok result ≡ day_fits self.old lightest heaviest }
        ensures after { self.new ≡ (if day_fits self.old lightest heaviest then with_day self.old lightest heaviest else self.old) }
    {
        let marks = self.lightest.len();
        if marks == MARKS
            || lightest > LARGEST_WEIGHT
            || heaviest > LARGEST_WEIGHT
            || self.links.len() + 2 > LINKS
        {
            return Err(Unfit);
        }
        let day = marks as u32;
        let lower = (Limit::Lightest(day), lightest);
        let upper = (Limit::Heaviest(day), heaviest);
        add_both(&mut self.links, marks as u8 - 1, marks as u8, lower, upper);
        raise(&mut self.lightest, lightest);
        raise(&mut self.heaviest, heaviest);
        Ok(())
    }

    // Adds a rule, with the least and the most that the days from `first` to `last` can weigh together.
    pub fn add_rule(
        &mut self,
        number: u32,
        first: u32,
        last: u32,
        least: u32,
        most: u32,
    ) -> Result<(), Unfit>
        ensures answer { is_ok result ≡ rule_fits self.old first last least most }
        ensures after { self.new ≡ (if rule_fits self.old first last least most then with_rule self.old number first last least most else self.old) }
    {
        if first == 0 || first > last || last as usize >= self.lightest.len() {
            return Err(Unfit);
        }
        if least > LARGEST_SUM || most > LARGEST_SUM || self.links.len() + 2 > LINKS {
            return Err(Unfit);
        }
        let lower = (Limit::Least(number), least);
        let upper = (Limit::Most(number), most);
        add_both(&mut self.links, first as u8 - 1, last as u8, lower, upper);
        Ok(())
    }
}

fn at_mark_0() -> Bounded<i16, MARKS>
    ensures { result ≡ pos 0 ∷ [] }
{
    let mut totals = Bounded::new(0);
    let _ = totals.push(0);
    totals
}

// Adds a link forward for the upper bound, and one back for the lower. The callers have seen to it that there is room.
fn add_both(
    links: &mut Bounded<Link, LINKS>,
    before: u8,
    after: u8,
    lower: (Limit, u32),
    upper: (Limit, u32),
)
    requires { (length links.old + 2 ≤ 1280) × (lower.1 ≤ 8064) × (upper.1 ≤ 8064) }
    ensures { links.new ≡ links.old ++ link upper.0 before after (pos upper.1) ∷ link lower.0 after before (neg_ℤ (pos lower.1)) ∷ [] }
{
    let before = Mark(before);
    let after = Mark(after);
    let _ = links.push(Link {
        limit: upper.0,
        from: before,
        to: after,
        allowance: upper.1 as i16,
    });
    let _ = links.push(Link {
        limit: lower.0,
        from: after,
        to: before,
        allowance: -(lower.1 as i16),
    });
}

// Adds the total at the next mark.
fn raise(totals: &mut Bounded<i16, MARKS>, weight: u32)
    requires room { (1 ≤ length totals.old) × (length totals.old ≤ 128) × (weight ≤ 63) }
    requires last { Small (at_mark totals.old (length totals.old - 1)) }
    ensures { totals.new ≡ raised totals.old weight }
{
    let last = totals.as_slice()[totals.len() - 1];
    let _ = totals.push(last + weight as i16);
}
