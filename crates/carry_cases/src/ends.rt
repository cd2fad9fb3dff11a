use crate::lists::carries;
use std::process::Abort;

// A sheet, how many bytes the list has, the answers that are written, and the number of the refusal that ends the work.
type Row = (&'static str, usize, &'static str, u32);

// The sheet ends: every line is answered. A refusal of a later line ends nothing.
#[rattlefmt::skip]
const ANSWERED: [Row; 6] = [
    ("(sheet duty 2 (codes 0))", 9, "(duty 2)\n", 0),
    ("(sheet collection 0 (codes) (counts))\n(settle)", 256, "(collection 0)\n(agreed (lean) (full) (keep))\n", 0),
    ("(sheet collection 1 (codes 4 7 9) (counts 9 7))\n(settle)\n", 256,
        "(collection 1)\n(agreed (lean 4) (full 7) (keep (1 4 7 9)))\n", 0),
    ("(sheet duty 128 (codes))\n(settle)\n(grant 128 1)\n", 256, "(duty 128)\n(refused 2)\n(done)\n", 0),
    ("(sheet boxes 2 (span 4 3))\n(strike 3 4)\n(strike 2 4)\n(grant 2 50)\n", 256, "(boxes 2)\n(refused 3)\n(done)\n(done)\n", 0),
    ("(sheet duty 3 (codes 0 1))\n(slide 2 (count 1 2))\n(withdraw 3)\n(withdraw 2)\n(rule (days 1 3) (count 0 4))\n", 256,
        "(duty 3)\n(slide 1 2)\n(refused 7)\n(done)\n(refused 5)\n", 0),
];

// The first line is refused, and nothing behind it is read.
#[rattlefmt::skip]
const REFUSED: [Row; 9] = [
    ("(sheet duty 129 (codes 0))\n(settle)\n", 12, "(refused 1)\n", 1),
    ("(sheet duty 129 (codes 0))\n(settle)\n", 11, "", 1),
    ("(sheet duty 129 (codes 64))", 12, "(refused 1)\n", 1),
    ("(sheet duty 0 (codes 2))\n(settle)\n", 256, "(refused 9)\n", 9),
    ("(sheet collection 2 (codes 1) (counts 64))", 256, "(refused 9)\n", 9),
    ("(sheet boxes 3 (span 64 0))\n(zz", 256, "(refused 9)\n", 9),
    ("(sheet boxes 3 (span 64 0))\n(zz", 11, "", 9),
    ("(sheet boxes 129 (span 0 0))", 0, "", 1),
    ("(sheet boxes 128 (span 0 64))\n", 0, "", 9),
];

// A line is not allowed.
#[rattlefmt::skip]
const FAULTS: [Row; 8] = [
    ("", 65, "(fault form 1 1)\n", 15),
    ("", 17, "(fault form 1 1)\n", 15),
    ("", 16, "", 15),
    ("\n", 0, "", 15),
    ("(sheet duty 2 (codes 0))\n(settl\n(settle)\n", 26, "(duty 2)\n(fault form 2 7)\n", 15),
    ("(sheet duty 2 (codes 0))\n(settl\n(settle)\n", 25, "(duty 2)\n", 15),
    ("(sheet duty 2 (codes 0))\n(strike 1 1)\n(settle\r\n", 256, "(duty 2)\n(done)\n(fault bytes 3 8)\n", 15),
    ("(sheet duty 2 (codes 0))\n(strike 3 0)\n(sheet", 21, "(duty 2)\n(refused 3)\n", 15),
];

// An answer does not fit, whatever comes behind its line: a shorter answer, or a fault.
#[rattlefmt::skip]
const FULL: [Row; 6] = [
    ("(sheet duty 2 (codes 0))\n", 0, "", 16),
    ("(sheet duty 2 (codes 0))\n(zz", 8, "", 16),
    ("(sheet duty 2 (codes 0))\n(strike 3 0)\n", 20, "(duty 2)\n", 16),
    ("(sheet duty 1 (codes 0 1))\n(settle)\n(strike 1 1)\n", 50, "(duty 1)\n", 16),
    ("(sheet duty 1 (codes 0 1))\n(settle)\n(zz", 50, "(duty 1)\n", 16),
    ("(sheet duty 1 (codes 0 1))\n(settle)\n(strike 1 1)\n", 51, "(duty 1)\n(agreed (lean 0) (full 1) (keep (1 0 1)))\n", 16),
];

fn tried<R: Abort>(rt: &R, rows: &[Row]) {
    for (sheet, room, answers, number) in rows {
        carries(rt, sheet, *room, answers.as_bytes(), *number);
    }
}

#[test]
fn how_sheets_end(rt: HostRuntime) {
    tried(&rt, &ANSWERED);
    tried(&rt, &REFUSED);
    tried(&rt, &FAULTS);
    tried(&rt, &FULL);
}
