ghost use Rattle.std.specs.Prelude.{◌≡◌, ◌+◌, ◌≤◌, length, true};
ghost use Rattle.reader.specs.Left.{apart, ahead};
ghost use Rattle.reader.specs.Places.{spot, position_of, foreign, longest};

use crate::place::{FaultKind, Place, ReadFault};
use crate::state::{State, after_text};

// The longest text that is read. A byte behind it is at fault, whatever it is.
pub const LIMIT: usize = 16_384;

// Reads a sheet. `at` bytes are read, those before `begun` in the lines before `line`, and `state` is what may still come
// on the line.
#[derive(Clone, Copy)]
pub struct Reader<'a> {
    text: &'a [u8],
    pub at: usize,
    line: u32,
    begun: usize,
    state: State,
    ghost within: { (at ≤ length text.now) × (at ≤ longest) },
    ghost placed: { spot line begun at ≡ position_of text.now at },
    ghost small: { (line ≤ at + 1) × (begun ≤ at) },
    ghost apart: { apart (ahead state) ≡ true },
}

impl<'a> Reader<'a> {
    ghost use Rattle.std.specs.Prelude.{◌≡◌, [], length, IsTrue, ◌↔◌, slice_range};
    ghost use Rattle.reader.specs.Forms.{Spells};
    ghost use Rattle.reader.specs.Left.{left, first_line};
    ghost use Rattle.reader.specs.Places.{byte_at, fault_at, position_of};
    ghost use Rattle.reader.specs.Steps.{Passes, EndsLine};

    // At the beginning of a sheet.
    pub fn new(text: &'a [u8]) -> Reader<'a>
        ensures text { result.text.now ≡ text.now }
        ensures begins { result.at ≡ 0 }
        ensures first { left result.state ≡ first_line }
    {
        Reader {
            text,
            at: 0,
            line: 1,
            begun: 0,
            state: State::Sheet(b"(sheet "),
        }
    }

    // Where the next byte stands.
    pub fn place(&self) -> Place
        ensures { result ≡ position_of self.now.text.now self.now.at }
    {
        Place {
            line: self.line,
            column: (self.at - self.begun) as u32 + 1,
        }
    }

    // The bytes from `from` to the place that is reached; none where `from` is past it.
    pub fn since(&self, from: usize) -> &'a [u8]
        ensures { result.now ≡ slice_range self.now.text.now from self.now.at }
    {
        if from > self.at {
            &[]
        } else {
            &self.text[from..self.at]
        }
    }

    // The next byte. There is none at the end of the text, and none past the limit.
    pub fn peek(&self) -> Option<u8>
        ensures { result ≡ byte_at self.now.text.now self.now.at }
    {
        if self.at < LIMIT && self.at < self.text.len() {
            Some(self.text[self.at])
        } else {
            None
        }
    }

    // The fault of the next byte, where the line cannot go on with it.
    pub fn fault(&self) -> ReadFault
        ensures { result ≡ fault_at self.now.text.now self.now.at }
    {
        let kind = match self.text.get(self.at) {
            Some(byte) if self.at == LIMIT || is_foreign(*byte) => FaultKind::Bytes,
            _ => FaultKind::Form,
        };
        ReadFault {
            kind,
            place: self.place(),
        }
    }

    // Reads the next byte, or stops at it. It is made part of its callers, so that the reader's few numbers stay in registers while
    // a line is read.
    #[inline(always)]
    pub fn step(&mut self) -> Result<(), ReadFault>
        ensures { Passes self.old result self.new }
    {
        let Some(byte) = self.peek() else {
            return Err(self.fault());
        };
        self.state = match (self.state, byte) {
            (State::Sheet([]), b'd') => State::Text(b"uty # (codes*))"),
            (State::Sheet([]), b'c') => State::Text(b"ollection # (codes*) (counts*))"),
            (State::Sheet([]), b'b') => State::Text(b"oxes # (span # #))"),
            (State::Sheet([due, rest @ ..]), _) if *due == byte => State::Sheet(rest),
            (State::Line, b'(') => State::Call,
            (State::Call, b'r') => State::Text(b"ule (days # #) (count # #))"),
            (State::Call, b'w') => State::Text(b"ithdraw #)"),
            (State::Call, b'g') => State::Text(b"rant # #)"),
            (State::Call, b's') => State::CallAfterS,
            (State::CallAfterS, b'l') => State::Text(b"ide # (count # #))"),
            (State::CallAfterS, b't') => State::Text(b"rike # #)"),
            (State::CallAfterS, b'e') => State::Text(b"ttle)"),
            (State::Number(rest), b'0') => State::Digits(0, rest),
            (State::Number(rest), b'1'..=b'9') => State::Digits(5, rest),
            (State::Digits(more @ 1.., rest), b'0'..=b'9') => State::Digits(more - 1, rest),
            (State::Text(rest) | State::Digits(_, rest), _) => match after_text(rest, byte) {
                Some(state) => state,
                None => return Err(self.fault()),
            },
            _ => return Err(self.fault()),
        };
        self.at += 1;
        Ok(())
    }

    // Whether the line is complete.
    pub fn is_complete(&self) -> bool
        ensures { IsTrue result ↔ Spells (left self.now.state) [] }
    {
        matches!(self.state, State::Text([]))
    }

    // Ends the line, or says that it cannot end here.
    #[inline(always)]
    pub fn end_line(&mut self) -> Result<(), ReadFault>
        ensures { EndsLine self.old result self.new }
    {
        if !self.is_complete() {
            return Err(self.fault());
        }
        match self.peek() {
            Some(b'\n') => {
                self.at += 1;
                self.line += 1;
                self.begun = self.at;
            }
            None if self.is_over() => {}
            _ => return Err(self.fault()),
        }
        self.state = State::Line;
        Ok(())
    }

    // Whether the whole text is read, so that no further line begins.
    pub fn is_over(&self) -> bool
        ensures { IsTrue result ↔ (self.now.at ≡ length self.now.text.now) }
    {
        self.at == self.text.len()
    }
}

// Whether no sheet has the byte.
fn is_foreign(byte: u8) -> bool
    ensures { result ≡ foreign byte }
{
    !matches!(byte, b'a'..=b'z' | b'0'..=b'9' | b' ' | b'(' | b')' | b'\n')
}
