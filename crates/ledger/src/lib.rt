// The ledger of a plan: the rules of the book, and the calls that edit book and entries.
#![tactic(auto)]

pub mod book;
pub mod call;
pub mod days;
pub mod places;
pub mod rule;
