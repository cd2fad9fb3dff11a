// Reads the bytes of a sheet one by one, each by what may still come on the line, and stops at the first that may not.
#![tactic(auto)]

pub mod place;
pub mod reader;
pub mod state;
