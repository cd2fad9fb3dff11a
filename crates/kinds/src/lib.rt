// The kinds of entry: duty, collection and boxes.
#![tactic(auto)]

pub mod boxes;
pub mod collection;
pub mod duty;
mod listing;
#[cfg(test)]
mod tests;
