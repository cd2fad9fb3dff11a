ghost use Rattle.std.specs.Prelude.{◌<◌, ◌≤◌, pos, ◌≤ℤ◌, ℕ};
ghost use Rattle.limits.specs.Links.{Totals, Solves};
ghost use Rattle.limits.specs.Systems.{Within, marks};
ghost use Rattle.closure.specs.Allowances.{cell, AllNear, Obeys, Covers, Passes};

use crate::matrix::Cells;
use crate::rows::{days_from, lower, lower_one};
use limits::link::Link;
use limits::system::{MARKS, System};

// What the days alone allow: forward the sum of their heaviest, backward that of their lightest.
pub(crate) fn day_sums(system: &System) -> Cells
    ensures near { AllNear (marks system.now) (cell result) }
    ensures diagonal { (mark : ℕ) → mark < marks system.now → cell result mark mark ≤ℤ pos 0 }
    ensures implied { (y : Totals) → Solves system.now.links y → Obeys (marks system.now) (cell result) y }
{
    let lightest = system.lightest();
    let heaviest = system.heaviest();
    let marks = lightest.len();
    let mut cells = [[0; MARKS]; MARKS];
    for from in 0..marks {
        cells[from] = days_from(from, lightest, heaviest);
    }
    cells
}

// Lowers the link's cell to its allowance, where that is less.
pub(crate) fn cover(cells: &mut Cells, link: Link)
    requires { Within 128 link }
    ensures { Covers link (cell cells.old) (cell cells.new) }
{
    lower_one(
        &mut cells[link.from.index()],
        link.to.index(),
        link.allowance,
    );
}

// Takes each way by the mark where it allows less.
pub(crate) fn pass(cells: &mut Cells, marks: usize, via: usize)
    requires inside { (via < marks) × (marks ≤ 129) }
    requires near { AllNear marks (cell cells.old) }
    ensures { Passes marks via (cell cells.old) (cell cells.new) }
{
    let through = cells[via];
    for from in 0..marks {
        let first = cells[from][via];
        lower(&mut cells[from], &through, first);
    }
}
