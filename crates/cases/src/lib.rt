// Plans with known outcomes, run through the calls and worked out from the definitions.
#![tactic(auto)]

#[cfg(test)]
mod days;
#[cfg(test)]
mod ledgers;
mod plans;
#[cfg(test)]
mod rosters;
#[cfg(test)]
mod runs;
#[cfg(test)]
mod settlements;
pub mod worked;
