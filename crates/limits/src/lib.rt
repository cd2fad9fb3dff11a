// Limits between marks, as plain numbers: what the days and the rules of a plan ask of its totals.
#![tactic(auto)]

pub mod agreed;
pub mod link;
pub mod system;
pub mod unfit;
