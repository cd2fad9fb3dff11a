ghost use Rattle.std.specs.Prelude.{◌≡◌};

// A point between days: mark 0 stands before day 1, mark d after day d.
#[derive(Clone, Copy, PartialEq, Eq, Debug)]
pub struct Mark(pub u8);

impl Mark {
    // The place of the mark in a list with one item for each mark.
    pub fn index(self) -> usize
        ensures { result ≡ self.0 }
    {
        usize::from(self.0)
    }
}

// Which of the four limits it is, with the number of the rule or the day.
#[derive(Clone, Copy, PartialEq, Eq, Debug)]
pub enum Limit {
    Most(u32),
    Least(u32),
    Heaviest(u32),
    Lightest(u32),
}

// The total at `to` exceeds the one at `from` by the allowance at most.
#[derive(Clone, Copy, PartialEq, Eq, Debug)]
pub struct Link {
    pub limit: Limit,
    pub from: Mark,
    pub to: Mark,
    pub allowance: i16,
}

// Stands in places that hold no link yet.
pub const NO_LINK: Link = Link {
    limit: Limit::Heaviest(0),
    from: Mark(0),
    to: Mark(0),
    allowance: 0,
};
