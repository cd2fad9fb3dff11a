use crate::definitions::{first_lines, later_lines};
use crate::texts::{expect, from_line, stops};
use reader::place::FaultKind;
use std::alloc::{AllocError, Global};
use std::process::Abort;
use std::test::Fail;

// The text ends inside the form, behind `least` of its bytes or more.
fn cut<R: Abort>(
    rt: &R,
    alloc: Global,
    line: u32,
    form: &str,
    least: usize,
) -> Result<(), AllocError> {
    let bytes = form.as_bytes();
    for end in least..bytes.len() {
        let text = from_line(alloc, line, &bytes[..end])?;
        let outcome = stops(FaultKind::Form, line, end + 1);
        expect(rt, form, text.as_slice(), outcome);
    }
    Ok(())
}

// A wrong byte in the place of each byte of the form.
fn spoilt<R: Abort>(
    rt: &R,
    alloc: Global,
    line: u32,
    form: &str,
    wrong: u8,
    kind: FaultKind,
) -> Result<(), AllocError> {
    let bytes = form.as_bytes();
    for at in 0..bytes.len() {
        let mut text = from_line(alloc, line, &bytes[..at])?;
        text.push(wrong)?;
        text.extend_from_slice(&bytes[at + 1..])?;
        expect(rt, form, text.as_slice(), stops(kind, line, at + 1));
    }
    Ok(())
}

// Each byte behind the whole form. Byte 10 ends it, and then an empty line is at fault.
fn followed<R: Abort>(rt: &R, alloc: Global, line: u32, form: &str) -> Result<(), AllocError> {
    let column = form.len().saturating_add(1);
    for byte in 0..=255u8 {
        let outcome = match byte {
            b'\n' => stops(FaultKind::Form, line.saturating_add(1), 1),
            b'a'..=b'z' | b'0'..=b'9' | b' ' | b'(' | b')' => stops(FaultKind::Form, line, column),
            _ => stops(FaultKind::Bytes, line, column),
        };
        let mut text = from_line(alloc, line, form.as_bytes())?;
        text.push(byte)?;
        text.push(b'\n')?;
        expect(rt, form, text.as_slice(), outcome);
    }
    Ok(())
}

// No word of a form has a z. With none of its bytes, a form on line 2 is no line: the text is over.
fn tried<R: Abort>(rt: &R, alloc: Global, line: u32, form: &str) -> Result<(), AllocError> {
    cut(rt, alloc, line, form, usize::from(line == 2))?;
    spoilt(rt, alloc, line, form, b'\r', FaultKind::Bytes)?;
    spoilt(rt, alloc, line, form, b'z', FaultKind::Form)?;
    spoilt(rt, alloc, line, form, b'\n', FaultKind::Form)?;
    followed(rt, alloc, line, form)
}

#[test]
fn each_form_with_a_fault(rt: HostRuntime) -> Result<(), Fail> {
    for form in first_lines() {
        tried(&rt, rt.alloc(), 1, form)?;
    }
    for form in later_lines() {
        tried(&rt, rt.alloc(), 2, form)?;
    }
    Ok(())
}
