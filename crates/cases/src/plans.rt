use crate::worked::{Days, Outcome, Reply, WorkedPlan};
use entry::refusal::Refusal;
use ledger::call::Call;
use limits::link::{Limit, Link, Mark};

// The codes that a day on duty may hold.
const OFF: &[u32] = &[0];

const ON: &[u32] = &[1];

const EITHER: &[u32] = &[0, 1];

// Two or three days on duty in any five, seven or eight.
const IN_FIVE: Call = Call::Slide {
    width: 5,
    least: 2,
    most: 3,
};

const IN_SEVEN: Call = Call::Slide {
    width: 7,
    least: 2,
    most: 3,
};

const IN_EIGHT: Call = Call::Slide {
    width: 8,
    least: 2,
    most: 3,
};

// Each window by itself would leave day 7 with both codes.
pub(crate) const SEVEN_DAYS: WorkedPlan = WorkedPlan {
    days: Days::Duty(&[ON, ON, EITHER, EITHER, EITHER, OFF, EITHER]),
    calls: &[IN_FIVE],
    outcome: Outcome::Agreed {
        keep: &[ON, ON, EITHER, EITHER, EITHER, OFF, ON],
        lean: &[1, 1, 0, 0, 1, 0, 1],
        full: &[1, 1, 1, 0, 0, 0, 1],
    },
};

pub(crate) const TEN_DAYS: WorkedPlan = WorkedPlan {
    days: Days::Duty(&[
        OFF, OFF, EITHER, EITHER, EITHER, EITHER, EITHER, EITHER, OFF, OFF,
    ]),
    calls: &[IN_FIVE],
    outcome: Outcome::Agreed {
        keep: &[OFF, OFF, ON, EITHER, EITHER, EITHER, EITHER, ON, OFF, OFF],
        lean: &[0, 0, 1, 0, 1, 0, 1, 1, 0, 0],
        full: &[0, 0, 1, 1, 0, 1, 0, 1, 0, 0],
    },
};

// The first two days are too few to leave seven for the last two.
pub(crate) const THREE_DAYS_OF_BOXES: WorkedPlan = WorkedPlan {
    days: Days::Boxes {
        days: 3,
        low: 1,
        high: 4,
    },
    calls: &[
        Call::Rule {
            first: 1,
            last: 2,
            least: 2,
            most: 3,
        },
        Call::Rule {
            first: 2,
            last: 3,
            least: 7,
            most: 8,
        },
    ],
    outcome: Outcome::Blocked {
        chain: &[
            Link {
                limit: Limit::Most(1),
                from: Mark(0),
                to: Mark(2),
                allowance: 3,
            },
            Link {
                limit: Limit::Heaviest(3),
                from: Mark(2),
                to: Mark(3),
                allowance: 4,
            },
            Link {
                limit: Limit::Least(2),
                from: Mark(3),
                to: Mark(1),
                allowance: -7,
            },
            Link {
                limit: Limit::Lightest(1),
                from: Mark(1),
                to: Mark(0),
                allowance: -1,
            },
        ],
        sum: -1,
    },
};

pub(crate) const NO_DAYS: WorkedPlan = WorkedPlan {
    days: Days::Duty(&[]),
    calls: &[],
    outcome: Outcome::Agreed {
        keep: &[],
        lean: &[],
        full: &[],
    },
};

// A rule wants a day on duty, and there is none.
pub(crate) const ONE_DAY_OFF: WorkedPlan = WorkedPlan {
    days: Days::Duty(&[OFF]),
    calls: &[Call::Rule {
        first: 1,
        last: 1,
        least: 1,
        most: 1,
    }],
    outcome: Outcome::Blocked {
        chain: &[
            Link {
                limit: Limit::Heaviest(1),
                from: Mark(0),
                to: Mark(1),
                allowance: 0,
            },
            Link {
                limit: Limit::Least(1),
                from: Mark(1),
                to: Mark(0),
                allowance: -1,
            },
        ],
        sum: -1,
    },
};

// Windows of five days, of all seven, and of more than there are.
pub(crate) const SEVEN_DAYS_TO_SLIDE: WorkedPlan = WorkedPlan {
    days: Days::Duty(&[EITHER, EITHER, EITHER, EITHER, EITHER, EITHER, EITHER]),
    calls: &[],
    outcome: Outcome::Answers(&[
        (IN_FIVE, Ok(Reply::Slide(Some((1, 3))))),
        (IN_SEVEN, Ok(Reply::Slide(Some((1, 1))))),
        (IN_EIGHT, Ok(Reply::Slide(None))),
    ]),
};

// An end of the run can go, and what lies inside it cannot.
pub(crate) const BOXES_TO_STRIKE: WorkedPlan = WorkedPlan {
    days: Days::Boxes {
        days: 1,
        low: 1,
        high: 4,
    },
    calls: &[],
    outcome: Outcome::Answers(&[
        (Call::Strike { day: 1, code: 4 }, Ok(Reply::Done)),
        (Call::Strike { day: 1, code: 3 }, Err(Refusal::WeightGap)),
    ]),
};

// The next number can be added, and none behind it.
pub(crate) const BOXES_TO_GRANT: WorkedPlan = WorkedPlan {
    days: Days::Boxes {
        days: 1,
        low: 3,
        high: 3,
    },
    calls: &[],
    outcome: Outcome::Answers(&[
        (Call::Grant { day: 1, code: 4 }, Ok(Reply::Done)),
        (Call::Grant { day: 1, code: 5 }, Err(Refusal::WeightGap)),
    ]),
};
