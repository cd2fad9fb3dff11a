use crate::texts::{expect, stops};
use reader::place::FaultKind;
use reader::place::FaultKind::{Bytes, Form};
use std::alloc::{AllocError, Global};
use std::process::Abort;
use std::test::Fail;

// The bytes of `first`, then those of `part` so many times, and then those of `last`.
fn repeated(
    alloc: Global,
    first: &str,
    part: &str,
    times: u32,
    last: &str,
) -> Result<Vec<u8>, AllocError> {
    let mut text = Vec::new(alloc);
    text.extend_from_slice(first.as_bytes())?;
    for _ in 0..times {
        text.extend_from_slice(part.as_bytes())?;
    }
    text.extend_from_slice(last.as_bytes())?;
    Ok(text)
}

// First lines behind which 1,817 lines `(settle)` leave so many of the first 16,384 bytes to line 1,819.
const LEAVES_SIX: &str = "(sheet duty 2 (codes 0))\n";

const LEAVES_EIGHT: &str = "(sheet duty 2 (codes))\n";

const LEAVES_NONE: &str = "(sheet duty 2 (codes 0 1 2 3))\n";

const SETTLE: &str = "(settle)\n";

// The beginning of a first line that a long list follows.
const LIST: &str = "(sheet duty 2 (codes";

// What the row shows; the parts of its text, as `repeated` takes them; and the kind, the line and the column of the
// fault. Without a fault all lines are answered, up to the line that is given.
type Row = (
    &'static str,
    &'static str,
    &'static str,
    u32,
    &'static str,
    Option<FaultKind>,
    u32,
    usize,
);

#[rattlefmt::skip]
const ROWS: [Row; 20] = [
    ("the form goes on", LEAVES_SIX, SETTLE, 1817, "(settle)\n", Some(Bytes), 1819, 7),
    ("a wrong letter", LEAVES_SIX, SETTLE, 1817, "(settlz)\n", Some(Bytes), 1819, 7),
    ("byte 13", LEAVES_SIX, SETTLE, 1817, "(settl\r", Some(Bytes), 1819, 7),
    ("byte 10 inside the form", LEAVES_SIX, SETTLE, 1817, "(settl\n", Some(Bytes), 1819, 7),
    ("byte 10 of a complete line", LEAVES_EIGHT, SETTLE, 1817, "(settle)\n", Some(Bytes), 1819, 9),
    ("a blank behind a complete line", LEAVES_EIGHT, SETTLE, 1817, "(settle) ", Some(Bytes), 1819, 9),
    ("an earlier fault", LEAVES_EIGHT, SETTLE, 1817, "(sattle)\n", Some(Form), 1819, 3),
    ("an earlier fault of the same kind", LEAVES_EIGHT, SETTLE, 1817, "(Settle)\n", Some(Bytes), 1819, 2),
    ("a fault at byte 16,384", LEAVES_EIGHT, SETTLE, 1817, "(settlez\n", Some(Form), 1819, 8),
    ("the text ends inside the form", LEAVES_SIX, SETTLE, 1817, "(settl", Some(Form), 1819, 7),
    ("the text ends with a complete line", LEAVES_EIGHT, SETTLE, 1817, "(settle)", None, 1819, 0),
    ("the text ends with byte 10", LEAVES_NONE, SETTLE, 1817, "", None, 1818, 0),
    ("the line begins behind the limit", LEAVES_NONE, SETTLE, 1817, SETTLE, Some(Bytes), 1819, 1),
    ("its wrong letter behind the limit", LEAVES_NONE, SETTLE, 1817, "z", Some(Bytes), 1819, 1),
    ("an empty line behind the limit", LEAVES_NONE, SETTLE, 1817, "\n", Some(Bytes), 1819, 1),
    ("a first line of 16,384 bytes", LIST, " 7", 8181, "))", None, 1, 0),
    ("its byte 10 behind the limit", LIST, " 7", 8181, "))\n", Some(Bytes), 1, 16_385),
    ("its last bracket behind the limit", LIST, " 7", 8182, "))", Some(Bytes), 1, 16_385),
    ("the text ends inside it", LIST, " 7", 8182, "", Some(Form), 1, 16_385),
    ("it is far longer", LIST, " 7", 9000, "))\n(settle)\n", Some(Bytes), 1, 16_385),
];

fn tried<R: Abort>(rt: &R, alloc: Global, rows: &[Row]) -> Result<(), AllocError> {
    for (name, first, part, times, last, fault, line, column) in rows {
        let text = repeated(alloc, first, part, *times, last)?;
        let outcome = match fault {
            Some(kind) => stops(*kind, *line, *column),
            None => (*line, None),
        };
        expect(rt, name, text.as_slice(), outcome);
    }
    Ok(())
}

#[test]
fn around_the_limit(rt: HostRuntime) -> Result<(), Fail> {
    tried(&rt, rt.alloc(), &ROWS)?;
    Ok(())
}
