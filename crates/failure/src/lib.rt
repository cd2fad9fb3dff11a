// Why `walkthrough` or `fortnight` ends early.
#![tactic(auto)]

ghost use Rattle.std.specs.Prelude.{◌≡◌};
ghost use Rattle.failure.specs.declared.Failure.TheVariants.{Refused, Output};

use entry::refusal::Refusal;
use std::io;

// A call that the program needs was refused, or its output took no more. The error is kept whole, and printed so.
#[derive(Debug, Drop)]
pub enum Failure {
    Refused(Refusal),
    Output(io::Error),
}

impl From<Refusal> for Failure {
    ghost from_gives = { λ refusal failure. failure ≡ Refused refusal };

    fn from(refusal: Refusal) -> Failure {
        Failure::Refused(refusal)
    }
}

impl From<io::Error> for Failure {
    ghost from_gives = { λ error failure. failure ≡ Output error };

    fn from(error: io::Error) -> Failure {
        Failure::Output(error)
    }
}
