use crate::lists::carries;

// The listing of docs/SHEETS.md, section 9.
const SHEET: &str = "(sheet boxes 3 (span 1 4))\n\
    (rule (days 1 2) (count 2 3))\n\
    (rule (days 2 3) (count 7 8))\n\
    (settle)\n\
    (withdraw 2)\n\
    (rule (days 2 3) (count 6 8))\n\
    (settle)\n\
    (strike 2 3)\n\
    (slide 4 (count 0 9))\n";

// Its answers but for the last line, and with it.
const EIGHT: &str = "(boxes 3)\n(rule 1)\n(rule 2)\n(blocked)\n(done)\n(rule 3)\n\
    (agreed (lean 1 2 4) (full 1 2 4) (keep (1 1) (2 2) (3 4)))\n(refused 11)\n";

const NINE: &str = "(boxes 3)\n(rule 1)\n(rule 2)\n(blocked)\n(done)\n(rule 3)\n\
    (agreed (lean 1 2 4) (full 1 2 4) (keep (1 1) (2 2) (3 4)))\n(refused 11)\n(slide none)\n";

// In a list with more bytes than the answers have, in one that they fill, and in one with a byte less.
#[test]
fn the_listing(rt: HostRuntime) {
    carries(&rt, SHEET, 200, NINE.as_bytes(), 0);
    carries(&rt, SHEET, 140, NINE.as_bytes(), 0);
    carries(&rt, SHEET, 139, EIGHT.as_bytes(), 16);
}
