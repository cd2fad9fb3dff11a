use crate::texts::{expect, from_line, stops, told};
use reader::place::FaultKind;
use reader::place::FaultKind::{Bytes, Form};
use sheet::sheet::Sheet;
use std::alloc::{AllocError, Global};
use std::process::Abort;
use std::test::Fail;

// The line on which a text begins, behind good lines; the text; and the kind, the line and the column of its fault.
type Row = (u32, &'static str, FaultKind, u32, usize);

// The examples of docs/SHEETS.md, section 4, and the empty text.
#[rattlefmt::skip]
const EXAMPLES: [Row; 15] = [
    (1, "", Form, 1, 1),
    (1, "\n", Form, 1, 1),
    (1, "(rule (days 1 2) (count 2 3))\n", Form, 1, 2),
    (1, "(sheet duty 2 (codes ))\n", Form, 1, 22),
    (1, "(sheet duty 07 (codes 0))\n", Form, 1, 14),
    (2, "(sheet duty 2 (codes 0))\n", Form, 2, 3),
    (2, "(settle", Form, 2, 8),
    (2, "(settle\n", Form, 2, 8),
    (2, "(settle) \n", Form, 2, 9),
    (2, "(settle)\r\n", Bytes, 2, 9),
    (2, "(Settle)\n", Bytes, 2, 2),
    (2, "(strike  1 3)\n", Form, 2, 9),
    (2, "(withdraw 1000000)\n", Form, 2, 17),
    (2, "(rule (days 1 2)(count 2 3))\n", Form, 2, 17),
    (2, "(settle)\n\n", Form, 3, 1),
];

// Numbers that are too long, begin with a needless zero, are none, are missing, or are too many.
#[rattlefmt::skip]
const NUMBERS: [Row; 17] = [
    (1, "(sheet duty 00 (codes))", Form, 1, 14),
    (1, "(sheet duty 1000000 (codes))", Form, 1, 19),
    (1, "(sheet duty (codes))", Form, 1, 13),
    (1, "(sheet duty 2 (codes 01))", Form, 1, 23),
    (1, "(sheet duty 2 (codes 0 1234567))", Form, 1, 30),
    (1, "(sheet collection 2 (codes) (counts 9 09))", Form, 1, 40),
    (1, "(sheet boxes 2 (span 1))", Form, 1, 23),
    (1, "(sheet boxes 2 (span 1 2 3))", Form, 1, 25),
    (2, "(withdraw 07)", Form, 2, 12),
    (2, "(withdraw 0000000)", Form, 2, 12),
    (2, "(withdraw 9999999)", Form, 2, 17),
    (2, "(withdraw -2)", Bytes, 2, 11),
    (2, "(withdraw x)", Form, 2, 11),
    (2, "(withdraw 2x)", Form, 2, 12),
    (2, "(withdraw)", Form, 2, 10),
    (2, "(grant 1 2 3)", Form, 2, 11),
    (2, "(slide 1 (count 0))", Form, 2, 18),
];

// Blanks too many, in the wrong places, or missing.
#[rattlefmt::skip]
const BLANKS: [Row; 17] = [
    (1, " (sheet duty 2 (codes 0))", Form, 1, 1),
    (1, "( sheet duty 2 (codes 0))", Form, 1, 2),
    (1, "(sheet  duty 2 (codes 0))", Form, 1, 8),
    (1, "(sheet duty  2 (codes 0))", Form, 1, 13),
    (1, "(sheet duty 2  (codes 0))", Form, 1, 15),
    (1, "(sheet duty 2 ( codes 0))", Form, 1, 16),
    (1, "(sheet duty 2 (codes  0))", Form, 1, 22),
    (1, "(sheet duty 2 (codes 0 ))", Form, 1, 24),
    (1, "(sheet duty 2 (codes 0) )", Form, 1, 24),
    (1, "(sheet duty 2(codes 0))", Form, 1, 14),
    (2, " (settle)", Form, 2, 1),
    (2, "( settle)", Form, 2, 2),
    (2, "(settle )", Form, 2, 8),
    (2, "(withdraw 2 )", Form, 2, 12),
    (2, "(withdraw2)", Form, 2, 10),
    (2, "(rule ( days 1 2) (count 2 3))", Form, 2, 8),
    (2, "(strike\t1 3)", Bytes, 2, 8),
];

// Forms on the wrong line, forms that are nearly right, and bytes that no sheet has.
#[rattlefmt::skip]
const PLACES: [Row; 16] = [
    (1, "(settle)", Form, 1, 3),
    (1, "(sheet)", Form, 1, 7),
    (1, "(sheet duties 2 (codes 0))", Form, 1, 11),
    (1, "(sheet collection 2 (codes 0))", Form, 1, 30),
    (1, "(sheet duty 2 (codes 0) (counts 0))", Form, 1, 24),
    (1, "(sheet collection 2 (counts 0) (codes 0))", Form, 1, 24),
    (1, "(sheet duty 2 (code 0))", Form, 1, 20),
    (1, "\u{feff}(sheet duty 2 (codes 0))", Bytes, 1, 1),
    (2, "\n(settle)\n", Form, 2, 1),
    (2, "(sheet", Form, 2, 3),
    (2, "settle", Form, 2, 1),
    (2, "[settle]", Bytes, 2, 1),
    (2, "(settle)(settle)", Form, 2, 9),
    (2, "(settle)\n(settle)\n(settl\u{e9})", Bytes, 4, 7),
    (2, "(strike 1 3)\n(settle)\n(grant 1 3)\n(sheet", Form, 5, 3),
    (2, "(rule (days 1 2) (count 2 3)", Form, 2, 29),
];

fn tried<R: Abort>(rt: &R, alloc: Global, rows: &[Row]) -> Result<(), AllocError> {
    for (from, text, kind, line, column) in rows {
        let whole = from_line(alloc, *from, text.as_bytes())?;
        let outcome = stops(*kind, *line, *column);
        expect(rt, text, whole.as_slice(), outcome);
    }
    Ok(())
}

#[test]
fn known_faults(rt: HostRuntime) -> Result<(), Fail> {
    tried(&rt, rt.alloc(), &EXAMPLES)?;
    tried(&rt, rt.alloc(), &NUMBERS)?;
    tried(&rt, rt.alloc(), &BLANKS)?;
    tried(&rt, rt.alloc(), &PLACES)?;
    Ok(())
}

// A line at fault is not passed.
#[test]
fn a_fault_is_told_again(rt: HostRuntime) -> Result<(), Fail> {
    for (text, kind, column) in [
        ("(settle", Form, 8),
        ("(settle) ", Form, 9),
        ("\n(settle)", Form, 1),
        ("(settle)\r\n", Bytes, 9),
    ] {
        let whole = from_line(rt.alloc(), 2, text.as_bytes())?;
        let (_, mut sheet) = Sheet::open(whole.as_slice())?;
        for _ in 0..3u32 {
            let fault = sheet.next_call().err().map(told);
            assert_eq!(rt; fault, Some((kind, 2, column)), "{text:?}");
        }
    }
    Ok(())
}
