ghost use Rattle.cases.specs.Worked.{AllAsExpected};

use crate::plans::{
    BOXES_TO_GRANT, BOXES_TO_STRIKE, NO_DAYS, ONE_DAY_OFF, SEVEN_DAYS, SEVEN_DAYS_TO_SLIDE,
    TEN_DAYS, THREE_DAYS_OF_BOXES,
};
use entry::refusal::Refusal;
use ledger::call::Call;
use limits::link::Link;

// The days of a plan before its first call.
#[derive(Clone, Copy)]
pub enum Days {
    // the codes that each day holds
    Duty(&'static [&'static [u32]]),
    Boxes { days: usize, low: u32, high: u32 },
}

// What a call answers that is not refused.
#[derive(Clone, Copy, PartialEq, Eq, Debug)]
pub enum Reply {
    // the first and the last number of the new rules, or none
    Slide(Option<(u32, u32)>),
    Done,
}

// What is expected of a plan.
#[derive(Clone, Copy)]
pub enum Outcome {
    // for each day the codes that some lawful roster has there, and the two rosters
    Agreed {
        keep: &'static [&'static [u32]],
        lean: &'static [u8],
        full: &'static [u8],
    },
    // a sound chain, and what its allowances add up to
    Blocked {
        chain: &'static [Link],
        sum: i16,
    },
    // what each of these calls answers that is made on the plan alone
    Answers(&'static [(Call, Result<Reply, Refusal>)]),
}

// A plan, the calls made on it, and what is expected then.
#[derive(Clone, Copy)]
pub struct WorkedPlan {
    pub days: Days,
    pub calls: &'static [Call],
    pub outcome: Outcome,
}

// Plans small enough to be worked by hand. What is expected of each is proved of the definitions.
#[tactic(auto, using(crate::proofs::Expecting::expected), unfolding(entry::specs::Cells::cells, entry::specs::Edits::some, entry::specs::Edits::only, entry::specs::Edits::gapless, entry::specs::Weights::held_weights, entry::specs::Weights::chosen))]
pub fn worked_plans() -> [WorkedPlan; 8]
    ensures { AllAsExpected result }
{
    [
        SEVEN_DAYS,
        TEN_DAYS,
        THREE_DAYS_OF_BOXES,
        NO_DAYS,
        ONE_DAY_OFF,
        SEVEN_DAYS_TO_SLIDE,
        BOXES_TO_STRIKE,
        BOXES_TO_GRANT,
    ]
}
