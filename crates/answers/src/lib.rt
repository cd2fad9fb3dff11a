// The answers to the lines of a sheet, and how each is written.
#![tactic(auto)]

pub mod answer;
mod writing;
