// A call on a plan with its arguments.
#[derive(Clone, Copy, PartialEq, Eq, Debug)]
pub enum Call {
    Rule {
        first: u32,
        last: u32,
        least: u32,
        most: u32,
    },
    Slide {
        width: u32,
        least: u32,
        most: u32,
    },
    Withdraw {
        number: u32,
    },
    Strike {
        day: u32,
        code: u32,
    },
    Grant {
        day: u32,
        code: u32,
    },
    Settle,
}
