ghost use Rattle.std.specs.Prelude.{◌≡◌};
ghost use Rattle.carry.specs.declared.fault.CarryFault.TheVariants.{Line};
ghost use Rattle.carry.specs.Ends.{refusal_of};

use entry::refusal::Refusal;
use sheet::fault::LineFault;

// Why the work on a sheet ended before its last line was answered: a line is not allowed, with the fault of the line whole;
// the first line is refused; or the next answer does not fit.
#[derive(Clone, Copy, PartialEq, Eq, Debug)]
pub enum CarryFault {
    Line(LineFault),
    Refused(Refusal),
    Full,
}

impl From<LineFault> for CarryFault {
    ghost from_gives = { λ line fault. fault ≡ Line line };

    fn from(line: LineFault) -> CarryFault {
        CarryFault::Line(line)
    }
}

impl CarryFault {
    // The row of the table of refusals.
    pub fn refusal(self) -> Refusal
        ensures { result ≡ refusal_of self }
    {
        match self {
            CarryFault::Line(_) => Refusal::BadLine,
            CarryFault::Refused(refusal) => refusal,
            CarryFault::Full => Refusal::AnswersFull,
        }
    }
}
