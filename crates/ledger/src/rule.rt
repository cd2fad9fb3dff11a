ghost use Rattle.std.specs.Prelude.{◌≡◌, ◌+◌, ◌-◌, ◌*◌, ◌||◌, nat_lt};
ghost use Rattle.ledger.specs.Ledgers.{ends_within};
ghost use Rattle.ledger.specs.Rules.{made, ended};

use entry::traits::Entry;

// On the days from `first` to `last` the weights add up to `least` at the least and to `most` at the most. A withdrawn
// rule is no longer in force.
#[derive(Clone, Copy, PartialEq, Eq, Debug)]
pub struct Rule {
    pub first: u32,
    pub last: u32,
    pub least: u32,
    pub most: u32,
    pub in_force: bool,
}

impl Rule {
    // A new rule is in force.
    pub fn made(first: u32, last: u32, least: u32, most: u32) -> Rule
        ensures { result ≡ made first last least most }
    {
        Rule {
            first,
            last,
            least,
            most,
            in_force: true,
        }
    }

    // The rule, no longer in force.
    pub fn ended(self) -> Rule
        ensures { result ≡ ended self }
    {
        Rule {
            in_force: false,
            ..self
        }
    }

    // Whether the rule is withdrawn, or ends within so many days.
    pub fn ends_within(self, days: u32) -> bool
        ensures { result ≡ ends_within days self }
    {
        !self.in_force || self.last <= days
    }

    // Whether least is above most, or most above what the days can weigh. The product may need 64 bits.
    pub(crate) fn has_bad_count<E: Entry>(self) -> bool
        ensures { result ≡ (nat_lt self.most self.least || nat_lt (E.TOP * (self.last - self.first + 1)) self.most) }
    {
        let days = u64::from(self.last.saturating_sub(self.first)) + 1;
        self.most < self.least || u64::from(E::TOP) * days < u64::from(self.most)
    }
}
