// Sets of the codes 0 to 63, held in one word.
#![tactic(auto)]

pub mod iter;
pub mod set;
#[cfg(test)]
mod tests;
