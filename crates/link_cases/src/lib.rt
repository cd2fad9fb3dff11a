// Days and rules as plain numbers, with known chains, totals and rises.
#![tactic(auto)]

pub mod example;
#[cfg(test)]
mod links;
