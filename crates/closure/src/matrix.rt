ghost use Rattle.std.specs.Prelude.{◌≡◌, ◌<◌, ◌≤◌, neg_ℤ};
ghost use Rattle.closure.specs.Allowances.{cell, AllNear};

use crate::rows::Row;
use limits::system::MARKS;

// One row for each mark.
pub(crate) type Cells = [Row; MARKS];

// An allowance from each of so many marks to each other, none of them larger than a sum of days.
#[derive(Drop)]
pub(crate) struct Matrix {
    pub(crate) marks: usize,
    pub(crate) cells: Cells,
    ghost few: { marks ≤ 129 },
    ghost near: { AllNear marks (cell cells) },
}

impl Matrix {
    // The most by which the total rises from the one mark to the other.
    pub(crate) fn most(&self, from: usize, to: usize) -> i16
        requires { (from < self.now.marks) × (to < self.now.marks) }
        ensures { result ≡ cell self.now.cells from to }
    {
        self.cells[from][to]
    }

    // The least by which it rises: the opposite of the most that it rises on the way back.
    pub(crate) fn least(&self, from: usize, to: usize) -> i16
        requires { (from < self.now.marks) × (to < self.now.marks) }
        ensures { result ≡ neg_ℤ (cell self.now.cells to from) }
    {
        -self.cells[to][from]
    }
}
