use bounded::Bounded;
use codes::set::CodeSet;
use entry::refusal::Refusal;
use ledger::days::DAYS;
use limits::link::Link;
use limits::system::MARKS;

// What an agreed plan allows: the possible codes of each day, and the lawful rosters with the smallest and with the largest
// total at every mark.
#[derive(Drop)]
pub struct Agreement {
    pub possible: Bounded<CodeSet, DAYS>,
    pub lean: Bounded<u8, DAYS>,
    pub full: Bounded<u8, DAYS>,
}

// What is found of a plan. A blocked one has a chain of limits that shows why.
#[derive(Drop)]
pub enum Verdict {
    Agreed(Agreement),
    Blocked(Bounded<Link, MARKS>),
    Refused(Refusal),
}
