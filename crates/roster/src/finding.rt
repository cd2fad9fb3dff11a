// What a check finds: nothing, the first day whose entry does not hold its code, or the first broken rule with the
// caller's own codes on its days.
#[derive(Clone, Copy, PartialEq, Eq, Debug)]
pub enum Finding<'r> {
    Lawful,
    NotHeld {
        day: u32,
    },
    Broken {
        rule: u32,
        first: u32,
        last: u32,
        stretch: &'r [u8],
    },
}
