ghost use Rattle.limits.specs.Systems.{Solvable};

use crate::system::System;

// A system that is known to have a solution.
#[derive(Drop)]
pub struct Agreed<'s> {
    pub system: &'s System,
    ghost solvable: { ∥ Solvable system.now ∥₁ },
}
