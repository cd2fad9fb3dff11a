// What one day of a plan may hold: the trait that every kind of entry keeps, and the refusals.
#![tactic(auto)]

pub mod refusal;
pub mod traits;
