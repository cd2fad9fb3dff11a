// Where a byte stands in a sheet: its line, and its place in the line, both counted from 1.
#[derive(Clone, Copy, PartialEq, Eq, Debug)]
pub struct Place {
    pub line: u32,
    pub column: u32,
}

// What is wrong with the byte at the place of a fault: a byte that no sheet has, or one that cannot stand here.
#[derive(Clone, Copy, PartialEq, Eq, Debug)]
pub enum FaultKind {
    Bytes,
    Form,
}

// The first byte with which the line can no longer be completed, or the end of the text.
#[derive(Clone, Copy, PartialEq, Eq, Debug)]
pub struct ReadFault {
    pub kind: FaultKind,
    pub place: Place,
}
