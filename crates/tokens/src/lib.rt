// Takes the lines of a sheet apart into words, numbers and brackets, or says where a line is at fault.
#![tactic(auto)]

pub mod token;
pub mod tokens;
