use reader::place::FaultKind;
use sheet::fault::LineFault;
use sheet::sheet::Sheet;
use std::alloc::{AllocError, Global};
use std::process::Abort;

// The kind, the line and the column of a fault.
pub(crate) type Fault = (FaultKind, u32, usize);

// How many lines of a text are answered, and the fault that ends it, where there is one.
pub(crate) type Outcome = (u32, Option<Fault>);

// A text that has these bytes from line 1, 2 or 3 on: alone, or behind as many good lines as that takes.
pub(crate) fn from_line(alloc: Global, line: u32, bytes: &[u8]) -> Result<Vec<u8>, AllocError> {
    let before = match line {
        1 => "",
        2 => "(sheet duty 2 (codes 0))\n",
        _ => "(sheet duty 2 (codes 0))\n(strike 8 9)\n",
    };
    let mut text = Vec::new(alloc);
    text.extend_from_slice(before.as_bytes())?;
    text.extend_from_slice(bytes)?;
    Ok(text)
}

pub(crate) fn told(fault: LineFault) -> Fault {
    let place = fault.read.place;
    (fault.read.kind, place.line, place.column as usize)
}

// Reads all lines.
fn worked(text: &[u8]) -> Outcome {
    let mut sheet = match Sheet::open(text) {
        Ok((_, sheet)) => sheet,
        Err(fault) => return (0, Some(told(fault))),
    };
    let mut answered = 1u32;
    // Each line has a byte at least.
    for _ in text {
        match sheet.next_call() {
            Ok(None) => break,
            Ok(Some(_)) => answered = answered.saturating_add(1),
            Err(fault) => return (answered, Some(told(fault))),
        }
    }
    (answered, None)
}

// All lines before that of the fault are answered.
pub(crate) fn stops(kind: FaultKind, line: u32, column: usize) -> Outcome {
    (line.saturating_sub(1), Some((kind, line, column)))
}

// Tries a row of a table, which `name` names.
pub(crate) fn expect<R: Abort>(rt: &R, name: &str, text: &[u8], outcome: Outcome) {
    assert_eq!(rt; worked(text), outcome, "{name:?}");
}
