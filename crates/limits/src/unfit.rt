ghost use Rattle.std.specs.Prelude.{Some, codes};
ghost use Rattle.std.specs.Fmt.{padded};

use std::error::Error;
use std::fmt;

// What has no place in a system: a weight above 63, a least or a most above 8,064, a 129th day, a rule whose days the plan
// does not have or whose first day is behind its last, or links beyond 1,280.
#[derive(Clone, Copy, PartialEq, Eq, Debug)]
pub struct Unfit;

impl fmt::Display for Unfit {
    ghost output = { λ unfit. Some (codes "a system has no place for that") };

    ghost styled_output = { λ unfit spec. Some (padded spec (codes "a system has no place for that")) };

    fn fmt<W: fmt::Write>(&self, f: &mut fmt::Formatter<W>) -> fmt::Result {
        f.pad("a system has no place for that")
    }
}

impl Error for Unfit {}
