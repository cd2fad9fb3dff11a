// Sheets with known answers, in lists of known lengths, and the definitions of answers and of first lines worked out.
#![tactic(auto)]

pub mod definitions;
#[cfg(test)]
mod ends;
#[cfg(test)]
mod listing;
#[cfg(test)]
mod lists;
