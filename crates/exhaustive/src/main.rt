// Small plans of each kind, worked by the planner and beside it from the definitions of the rules alone, by trying every roster,
// and compared: exhaustive SEED PLANS, or with no arguments some thousand plans of each kind.
#![tactic(auto)]

mod answer;
mod calls;
mod compare;
mod difference;
mod links;
mod made_up;
mod model;
mod outcome;
mod questions;
mod rosters;
mod tally;
#[cfg(test)]
mod tests;
mod trial;

use anyhow::bail;
use compare::compare_kind;
use kinds::boxes::Boxes;
use kinds::collection::Collection;
use kinds::duty::Duty;
use made_up::{Draws, play};
use std::env;
use tally::{NO_SETTLES, Tally};
use trial::{Build, Trial};

// From which seed plans are made up, and how many of each kind.
#[derive(Clone, Copy)]
struct Task {
    seed: u32,
    plans: u32,
}

impl Task {
    fn read(words: &[String]) -> anyhow::Result<Task> {
        match words {
            [] => Ok(Task {
                seed: 1,
                plans: 2000,
            }),
            [seed, plans] => Ok(Task {
                seed: seed.parse::<u32>()?,
                plans: plans.parse::<u32>()?,
            }),
            _ => bail!("usage: exhaustive SEED PLANS"),
        }
    }
}

// Stops at the first plan of which the planner tells otherwise than the rules, and shows it.
fn play_kind<E: Build>(
    rt: &HostRuntime,
    plans: u32,
    draws: &mut Draws,
    tally: &mut Tally,
) -> anyhow::Result<()> {
    compare_kind::<E>(E::kind())?;
    tally.settles = NO_SETTLES;
    for number in 1..=plans {
        let mut trial = Trial::<E>::new(rt.alloc());
        if let Err(error) = play(rt.alloc(), &mut trial, draws, tally) {
            println!(rt; "Plan {number} of {}: {error}.\n{trial}", E::kind())?;
            return Err(error);
        }
    }
    println!(rt; "{}: {plans} plans, {}", E::kind(), tally.settles)?;
    Ok(())
}

fn main(rt: HostRuntime) -> anyhow::Result<()> {
    let words: Vec<String> = env::args(&rt)?.skip(1).collect(rt.alloc())?;
    let Task { seed, plans } = Task::read(words.as_slice())?;
    let mut draws = Draws::new(seed);
    let mut tally = Tally::new();
    play_kind::<Duty>(&rt, plans, &mut draws, &mut tally)?;
    play_kind::<Collection>(&rt, plans, &mut draws, &mut tally)?;
    play_kind::<Boxes>(&rt, plans, &mut draws, &mut tally)?;
    println!(rt; "{tally}\nNo difference.")?;
    Ok(())
}
