// The lines of a sheet as data: what its first line starts, and the calls of the others.
#![tactic(auto)]

pub mod code_list;
mod draft;
pub mod fault;
pub mod sheet;
pub mod start;
