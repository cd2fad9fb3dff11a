// Sheets with known lines and known faults, and the forms of lines worked out from the definitions.
#![tactic(auto)]

#[cfg(test)]
mod calls;
pub mod definitions;
#[cfg(test)]
mod faults;
#[cfg(test)]
mod forms;
#[cfg(test)]
mod long;
#[cfg(test)]
mod parts;
#[cfg(test)]
mod texts;
