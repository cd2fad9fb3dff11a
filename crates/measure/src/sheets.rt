use crate::made_up::Draws;
use anyhow::anyhow;
use bounded::Bounded;
use std::fmt;
use std::str::FromStr;

// The longest sheet that is made up. It is longer than what is read of one.
pub(crate) const ROOM: usize = 20_000;

// No item of a first line and no later line takes more bytes.
const SPARE: usize = 50;

// What a sheet mostly consists of.
#[derive(Clone, Copy, PartialEq, Eq, Debug)]
pub(crate) enum SheetSort {
    // Later lines of every form, in any order.
    Calls,
    // Later lines that settle.
    Settles,
    // A first line with one long list of codes.
    Codes,
}

impl FromStr for SheetSort {
    type Err = anyhow::Error;

    fn from_str(word: &str) -> anyhow::Result<SheetSort> {
        match word {
            "calls" => Ok(SheetSort::Calls),
            "settles" => Ok(SheetSort::Settles),
            "codes" => Ok(SheetSort::Codes),
            _ => Err(anyhow!("no sort of sheet: {word}")),
        }
    }
}

impl fmt::Display for SheetSort {
    fn fmt<W: fmt::Write>(&self, f: &mut fmt::Formatter<W>) -> fmt::Result {
        f.pad(match self {
            SheetSort::Calls => "calls",
            SheetSort::Settles => "settles",
            SheetSort::Codes => "codes",
        })
    }
}

// The form of a first line of the sort, where `#` stands for a number and `*` for a list of codes.
fn first_form(sort: SheetSort) -> &'static [u8] {
    match sort {
        SheetSort::Calls => b"(sheet collection # (codes # # #) (counts # #))\n",
        SheetSort::Settles => b"(sheet boxes # (span # #))\n",
        SheetSort::Codes => b"(sheet duty # (codes*))\n",
    }
}

// The forms of later lines by number, up to the one that settles.
pub(crate) const RULE: u32 = 0;

pub(crate) const SLIDE: u32 = 1;

pub(crate) const WITHDRAW: u32 = 2;

pub(crate) const STRIKE: u32 = 3;

pub(crate) const GRANT: u32 = 4;

pub(crate) const SETTLE: u32 = 5;

pub(crate) fn later_form(number: u32) -> &'static [u8] {
    match number {
        RULE => b"(rule (days # #) (count # #))\n",
        SLIDE => b"(slide # (count # #))\n",
        WITHDRAW => b"(withdraw #)\n",
        STRIKE => b"(strike # #)\n",
        GRANT => b"(grant # #)\n",
        _ => b"(settle)\n",
    }
}

// A sheet of at most so many bytes.
pub(crate) fn made_up_sheet(bytes: u32, sort: SheetSort) -> Bounded<u8, ROOM> {
    let mut writer = Writer {
        text: Bounded::new(b' '),
        draws: Draws(bytes),
        bytes: ROOM.min(bytes as usize),
    };
    writer.form(first_form(sort));
    for _ in 0..bytes {
        if !writer.has_room() {
            break;
        }
        let number = match sort {
            SheetSort::Settles => SETTLE,
            _ => writer.draws.between(0, SETTLE),
        };
        writer.form(later_form(number));
    }
    writer.text
}

// A sheet in the making.
#[derive(Drop)]
struct Writer {
    text: Bounded<u8, ROOM>,
    draws: Draws,
    bytes: usize,
}

impl Writer {
    // Whether one more line, or one more item and the end of the line, surely fits.
    fn has_room(&self) -> bool {
        self.bytes.saturating_sub(self.text.len()) >= SPARE
    }

    fn put(&mut self, byte: u8) {
        let _ = self.text.push(byte);
    }

    // A line of the form.
    fn form(&mut self, form: &[u8]) {
        for byte in form {
            match *byte {
                b'#' => self.number(),
                b'*' => self.codes(),
                byte => self.put(byte),
            }
        }
    }

    // A number of one to six digits.
    fn number(&mut self) {
        let count = self.draws.between(1, 6);
        let first = self.draws.between(u32::from(count > 1), 9);
        self.digit(first);
        for _ in 1..count {
            let digit = self.draws.between(0, 9);
            self.digit(digit);
        }
    }

    // Codes of one digit, the shortest items, as many as there is room for, each behind a blank.
    fn codes(&mut self) {
        for _ in 0..self.bytes {
            if !self.has_room() {
                break;
            }
            let code = self.draws.between(0, 9);
            self.put(b' ');
            self.digit(code);
        }
    }

    fn digit(&mut self, digit: u32) {
        self.put(b'0'.wrapping_add(digit.min(9) as u8));
    }
}
