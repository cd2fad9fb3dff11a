// The closure of the links of a system: what they allow from each mark to each other, directly or by way of others.
#![tactic(auto)]

mod matrix;
mod rows;
mod steps;

ghost use Rattle.std.specs.Prelude.{◌≡◌, ◌+◌, ◌&&◌, nat_le, is_some, IfSome};
ghost use Rattle.limits.specs.Systems.{days, Bounds};
ghost use Rattle.closure.specs.Closures.{Closes, Smallest, Largest, Reaches};
ghost use Rattle.closure.specs.Allowances.{cell};

use crate::matrix::Matrix;
use crate::steps::{cover, day_sums, pass};
use bounded::Bounded;
use limits::agreed::Agreed;
use limits::link::Mark;
use limits::system::{MARKS, System};

// By how much the total rises from one mark to another: from `least` to `most`.
#[derive(Clone, Copy, PartialEq, Eq, Debug)]
pub struct Rise {
    pub least: i16,
    pub most: i16,
}

// A system with what its links together allow, as the type says.
#[derive(Drop)]
pub struct Closure<'s> {
    pub system: &'s System,
    matrix: Matrix,
    ghost bounds: { Bounds system.now },
    ghost sized: { matrix.marks ≡ days system.now + 1 },
    ghost closes: { Closes system.now (cell matrix.cells) },
}

impl<'s> Closure<'s> {
    // Starts from what the days allow, adds the links one by one, and then the ways by one mark after another. As a part of its
    // callers it copies the rows less often.
    #[inline(always)]
    pub fn of(agreed: &Agreed<'s>) -> Closure<'s>
        ensures { result.system.now ≡ agreed.now.system.now }
    {
        let system = agreed.system;
        let marks = system.days() + 1;
        let mut cells = day_sums(system);
        for link in system.links() {
            cover(&mut cells, *link);
        }
        for via in 0..marks {
            pass(&mut cells, marks, via);
        }
        Closure {
            system,
            matrix: Matrix { marks, cells },
        }
    }

    // The smallest total at each mark, where the one at mark 0 is 0.
    pub fn smallest(&self) -> Bounded<i16, MARKS>
        ensures { Smallest self.now.system.now result }
    {
        let mut totals = Bounded::new(0);
        for mark in 0..self.matrix.marks {
            let _ = totals.push(self.matrix.least(0, mark));
        }
        totals
    }

    // The largest total at each mark, where the one at mark 0 is 0.
    pub fn largest(&self) -> Bounded<i16, MARKS>
        ensures { Largest self.now.system.now result }
    {
        let mut totals = Bounded::new(0);
        for mark in 0..self.matrix.marks {
            let _ = totals.push(self.matrix.most(0, mark));
        }
        totals
    }

    // By how much the total can rise from the one mark to the other. A mark past the days has no answer.
    pub fn rise(&self, from: Mark, to: Mark) -> Option<Rise>
        ensures answer { is_some result ≡ (nat_le from.0 (days self.now.system.now) && nat_le to.0 (days self.now.system.now)) }
        ensures rise { IfSome result (λ rise. Reaches self.now.system.now from.0 to.0 rise.least rise.most) }
    {
        let from = from.index();
        let to = to.index();
        if from >= self.matrix.marks || to >= self.matrix.marks {
            return None;
        }
        Some(Rise {
            least: self.matrix.least(from, to),
            most: self.matrix.most(from, to),
        })
    }
}
