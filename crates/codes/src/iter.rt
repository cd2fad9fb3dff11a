ghost use Rattle.std.specs.Iterator.{item_count};
ghost use Rattle.codes.specs.Coming.{coming, Gives};
ghost use Rattle.codes.specs.Members.{Listing};

use crate::set::CodeSet;

// Gives the codes of a set in rising order, and holds those that are still to come.
#[derive(Drop)]
pub struct Codes {
    rest: CodeSet,
}

impl Codes {
    pub(crate) fn over(set: CodeSet) -> Codes
        ensures { Listing set (coming result) }
    {
        Codes { rest: set }
    }
}

impl Iterator for Codes {
    type Item = u32;

    ghost can_next = { λ _. Unit {0} };

    ghost next_gives = { Gives };

    ghost remaining = { item_count coming };

    fn next(&mut self) -> Option<u32> {
        let (code, rest) = self.rest.split_first()?;
        self.rest = rest;
        Some(code)
    }
}
