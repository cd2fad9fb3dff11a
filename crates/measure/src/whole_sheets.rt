use crate::made_up::{Draws, Sort, total_at};
use crate::sheets::{GRANT, ROOM, RULE, SETTLE, SLIDE, STRIKE, WITHDRAW, later_form};
use anyhow::anyhow;
use bounded::Bounded;
use itoa::Buffer;
use limits::system::MARKS;
use std::fmt;
use std::str::FromStr;

const DAYS: u32 = 128;

// A book has room for so many rules. The slides make 122, 115 and 101 of them.
const RULES: u32 = 512;

const SLID: u32 = 338;

// A sheet settles so often, each time after so many edits of each form.
pub(crate) const SETTLES: u32 = 8;

const EDITS: u32 = 4;

#[derive(Clone, Copy, PartialEq, Eq, Debug)]
pub(crate) enum Kind {
    Duty,
    Collection,
    Boxes,
}

impl FromStr for Kind {
    type Err = anyhow::Error;

    fn from_str(word: &str) -> anyhow::Result<Kind> {
        match word {
            "duty" => Ok(Kind::Duty),
            "collection" => Ok(Kind::Collection),
            "boxes" => Ok(Kind::Boxes),
            _ => Err(anyhow!("no kind: {word}")),
        }
    }
}

impl fmt::Display for Kind {
    fn fmt<W: fmt::Write>(&self, f: &mut fmt::Formatter<W>) -> fmt::Result {
        f.pad(match self {
            Kind::Duty => "duty",
            Kind::Collection => "collection",
            Kind::Boxes => "boxes",
        })
    }
}

impl Kind {
    fn top(self) -> u32 {
        match self {
            Kind::Duty | Kind::Collection => 1,
            Kind::Boxes => 63,
        }
    }

    // The hidden weight of a day. Days of boxes can do with a good deal less and more.
    fn weight(self, draws: &mut Draws) -> u32 {
        match self {
            Kind::Duty | Kind::Collection => draws.between(0, 1),
            Kind::Boxes => draws.between(16, 47),
        }
    }

    // A code that is not needed for the hidden weight of its day.
    fn spare_code(self, weight: u32, draws: &mut Draws) -> u32 {
        match self {
            Kind::Duty => 1u32.saturating_sub(weight),
            Kind::Collection => draws.between(0, 63),
            Kind::Boxes => draws.between(0, 3),
        }
    }
}

// A sheet with a full book, and then edits and a settle by turns. The settles can be left out.
pub(crate) fn whole_sheet(kind: Kind, sort: Sort, settles: bool) -> Bounded<u8, ROOM> {
    let mut draws = Draws(DAYS);
    let totals = hidden_totals(kind, &mut draws);
    let mut writer = Writer {
        text: Bounded::new(b' '),
    };
    writer.first_line(kind);
    for width in [7, 14, 28] {
        writer.slide(width, &totals);
    }
    let singles = RULES - SLID;
    for number in 1..=singles {
        let stand = sort.stand(number, singles, DAYS);
        let rule = draws.rule(stand, DAYS, &totals, kind.top());
        writer.line(later_form(RULE), &rule);
    }
    for _ in 0..SETTLES {
        for _ in 0..EDITS {
            writer.edits(kind, &mut draws, &totals);
        }
        if settles {
            writer.line(later_form(SETTLE), &[]);
        }
    }
    writer.text
}

fn hidden_totals(kind: Kind, draws: &mut Draws) -> Bounded<u32, MARKS> {
    let mut total = 0u32;
    let mut totals = Bounded::new(total);
    let _ = totals.push(total);
    for _ in 0..DAYS {
        total = total.wrapping_add(kind.weight(draws));
        let _ = totals.push(total);
    }
    totals
}

fn sum_of(totals: &Bounded<u32, MARKS>, first: u32, last: u32) -> u32 {
    total_at(totals, last).saturating_sub(total_at(totals, first.saturating_sub(1)))
}

// A sheet in the making.
#[derive(Drop)]
struct Writer {
    text: Bounded<u8, ROOM>,
}

impl Writer {
    // Every day begins with all codes of the kind. Every second one of a collection counts.
    fn first_line(&mut self, kind: Kind) {
        match kind {
            Kind::Duty => self.line(b"(sheet duty # (codes 0 1))\n", &[DAYS]),
            Kind::Collection => {
                self.line(b"(sheet collection # (codes", &[DAYS]);
                for code in 0..64 {
                    self.line(b" #", &[code]);
                }
                self.line(b") (counts", &[]);
                for half in 0..32 {
                    self.line(b" #", &[half * 2 + 1]);
                }
                self.line(b"))\n", &[]);
            }
            Kind::Boxes => self.line(b"(sheet boxes # (span 0 63))\n", &[DAYS]),
        }
    }

    // The slide with the closest bounds that the hidden weights keep.
    fn slide(&mut self, width: u32, totals: &Bounded<u32, MARKS>) {
        let mut least = u32::MAX;
        let mut most = 0;
        for last in width..=DAYS {
            let sum = sum_of(totals, (last - width).saturating_add(1), last);
            least = least.min(sum);
            most = most.max(sum);
        }
        self.line(later_form(SLIDE), &[width, least, most]);
    }

    // An edit of each form that takes a number or a code. None withdraws the last rule, which may be the one that blocks.
    fn edits(&mut self, kind: Kind, draws: &mut Draws, totals: &Bounded<u32, MARKS>) {
        let number = draws.between(1, RULES - 1);
        self.line(later_form(WITHDRAW), &[number]);
        for form in [STRIKE, GRANT] {
            let day = draws.between(1, DAYS);
            let code = kind.spare_code(sum_of(totals, day, day), draws);
            self.line(later_form(form), &[day, code]);
        }
    }

    // A line of the form, or a part of one, with the numbers in place of its `#`.
    fn line(&mut self, form: &[u8], numbers: &[u32]) {
        let mut rest = numbers.iter();
        for byte in form {
            match *byte {
                b'#' => self.number(rest.next().copied().unwrap_or(0)),
                byte => self.put(byte),
            }
        }
    }

    fn number(&mut self, number: u32) {
        let mut buffer = Buffer::new();
        for byte in buffer.format(number).as_bytes() {
            self.put(*byte);
        }
    }

    fn put(&mut self, byte: u8) {
        let _ = self.text.push(byte);
    }
}
