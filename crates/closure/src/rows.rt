ghost use Rattle.std.specs.Prelude.{◌≡◌, ℕ, ◌<◌, ◌≤◌, ◌≢◌, ◌+ℤ◌, length};
ghost use Rattle.std.specs.Int.{int_min};
ghost use Rattle.limits.specs.Systems.{Small, at_mark, Near};
ghost use Rattle.closure.specs.Rows.{DaysFrom};

use limits::system::MARKS;

// What one mark allows to each other.
pub(crate) type Row = [i16; MARKS];

// What the days alone allow from a mark: backward what their lightest add up to, forward what their heaviest do.
pub(crate) fn days_from(from: usize, lightest: &[i16], heaviest: &[i16]) -> Row
    requires long { (from < length lightest.now) × (length heaviest.now ≡ length lightest.now) × (length lightest.now ≤ 129) }
    requires small { (mark : ℕ) → mark < length lightest.now → Small (at_mark lightest.now mark) × Small (at_mark heaviest.now mark) }
    ensures { DaysFrom from lightest.now heaviest.now result }
{
    let mut row = [0; MARKS];
    for to in 0..from {
        row[to] = lightest[to] - lightest[from];
    }
    for to in from..heaviest.len() {
        row[to] = heaviest[to] - heaviest[from];
    }
    row
}

// Lowers each number to `first` and the other row's number there together, where that is less. It goes over the whole row:
// since the length is known when the loop is compiled, that takes fewer instructions than to stop at the last mark. Numbers
// past the marks mean nothing, and may wrap.
pub(crate) fn lower(row: &mut Row, through: &Row, first: i16)
    requires { Near first }
    ensures { (to : ℕ) → to < 129 → Near (at_mark through.now to) → at_mark row.new to ≡ int_min (at_mark row.old to) (first +ℤ at_mark through.now to) }
{
    for to in 0..MARKS {
        row[to] = row[to].min(first.wrapping_add(through[to]));
    }
}

// Lowers one number to the allowance, where that is less.
pub(crate) fn lower_one(row: &mut Row, to: usize, allowance: i16)
    requires { to < 129 }
    ensures lowered { at_mark row.new to ≡ int_min (at_mark row.old to) allowance }
    ensures rest { (other : ℕ) → other ≢ to → at_mark row.new other ≡ at_mark row.old other }
{
    row[to] = row[to].min(allowance);
}
