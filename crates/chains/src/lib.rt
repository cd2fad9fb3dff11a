// Judges a system of links: it has a solution, or a closed chain of its links rules out every one.
#![tactic(auto)]

pub mod chain;
mod layers;
mod walk;

ghost use Rattle.std.specs.Prelude.{◌≡◌, List, IfOk, IfErr};
ghost use Rattle.limits.specs.declared.link.Link.{Link};
ghost use Rattle.limits.specs.Links.{Totals, Solves};
ghost use Rattle.limits.specs.Systems.{Solvable};
ghost use Rattle.chains.specs.Chains.{Blocks};

use crate::chain::sum;
use crate::layers::{Layers, falling_mark, lightest_totals};
use crate::walk::blocking_chain;
use bounded::Bounded;
use limits::agreed::Agreed;
use limits::link::Link;
use limits::system::{MARKS, System};

// Agreed where there is a solution; else a closed chain of the system's links with a negative sum.
pub fn judge(system: &System) -> Result<Agreed<'_>, Bounded<Link, MARKS>>
    ensures agreed { IfOk result (λ a. (a.system.now ≡ system.now) × Solvable system.now) }
    ensures blocked { IfErr result (λ chain. Blocks system.now chain) }
    ensures excluded { (chain : List Link) → Blocks system.now chain → (y : Totals) → Solves system.now.links y → ⊥ }
{
    let mut layers: Layers = [[0; MARKS]; MARKS + 1];
    layers[0] = lightest_totals(system);
    match falling_mark(system, &mut layers) {
        None => Ok(Agreed { system }),
        Some(mark) => {
            let chain = blocking_chain(system, &layers, mark);
            prove!(sum(&chain) < 0);
            Err(chain)
        }
    }
}
