use crate::code_list::CodeList;

// What a first line says: the kind, the number of days, and what each day starts with.
#[derive(Clone, Copy, PartialEq, Eq, Debug)]
pub enum Start {
    Duty {
        days: u32,
        codes: CodeList,
    },
    Collection {
        days: u32,
        codes: CodeList,
        counts: CodeList,
    },
    Boxes {
        days: u32,
        low: u32,
        high: u32,
    },
}
