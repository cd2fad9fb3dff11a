ghost use Rattle.std.specs.Prelude.{◌≤◌, slice_range};
ghost use Rattle.reader.specs.Left.{left};
ghost use Rattle.tokens.specs.Beginnings.{Completes};

use crate::token::{Class, Token};
use reader::place::ReadFault;
use reader::reader::Reader;

// The tokens of a sheet that are still to come. The line that is read began at `start`, as the contracts have to know.
#[derive(Clone, Copy)]
pub struct Tokens<'a> {
    reader: Reader<'a>,
    start: usize,
    ghost from: { start ≤ reader.at },
    ghost fits: { Completes start (slice_range reader.text.now start reader.at) (left reader.state) },
}

impl<'a> Tokens<'a> {
    ghost use Rattle.std.specs.Prelude.{◌≡◌, ◌≢◌, ◌+◌, IsTrue, ◌↔◌, length, Some, MatchOption};
    ghost use Rattle.tokens.specs.Next.{Gives};
    ghost use Rattle.tokens.specs.Passing.{next_byte, BlanksTo, RunTo, GoesOnTo, Advances, Finishes};

    // Those of a whole sheet.
    pub fn new(text: &'a [u8]) -> Tokens<'a>
        ensures text { result.reader.text.now ≡ text.now }
        ensures begins { (result.start ≡ 0) × (result.reader.at ≡ 0) }
    {
        Tokens {
            reader: Reader::new(text),
            start: 0,
        }
    }

    // Whether the whole text is read, so that no further line begins.
    pub fn is_over(&self) -> bool
        ensures { IsTrue result ↔ (self.now.reader.at ≡ length self.now.reader.text.now) }
    {
        self.reader.is_over()
    }

    // The next token, or the place from which no line can be completed.
    #[inline(always)]
    pub fn next(&mut self) -> Result<Token<'a>, ReadFault>
        ensures text { self.new.reader.text ≡ self.old.reader.text }
        ensures token { Gives self.old result self.new }
    {
        self.blanks()?;
        let place = self.reader.place();
        match self.reader.peek() {
            Some(b'(') => {
                self.step()?;
                Ok(Token::Open { place })
            }
            Some(b')') => {
                self.step()?;
                Ok(Token::Close { place })
            }
            Some(b'a'..=b'z') => {
                let text = self.run(Class::Letters)?;
                Ok(Token::Word { text, place })
            }
            Some(b'0'..=b'9') => {
                let digits = self.run(Class::Digits)?;
                Ok(Token::Number { digits, place })
            }
            None | Some(b'\n') => {
                self.end()?;
                Ok(Token::End)
            }
            Some(_) => Err(self.reader.fault()),
        }
    }

    // Past the blanks that stand here.
    #[inline(always)]
    fn blanks(&mut self) -> Result<(), ReadFault>
        ensures { Advances self.old result self.new (λ x. BlanksTo self.old self.new × (next_byte self.new ≢ Some 32)) (BlanksTo self.old self.new) }
    {
        while let Some(b' ') = self.reader.peek() {
            self.step()?;
        }
        Ok(())
    }

    // Past the bytes of one class that stand here, which it lends.
    #[inline(always)]
    fn run(&mut self, class: Class) -> Result<&'a [u8], ReadFault>
        ensures { Advances self.old result self.new (λ part. RunTo class self.old self.new part.now) (GoesOnTo class self.old self.new) }
    {
        let from = self.reader.at;
        while let Some(byte) = self.reader.peek()
            && class.has(byte)
        {
            self.step()?;
        }
        Ok(self.reader.since(from))
    }

    // Past one byte, which is there and ends no line.
    #[inline(always)]
    fn step(&mut self) -> Result<(), ReadFault>
        requires { MatchOption (next_byte self.now) ⊥ (λ b. b ≢ 10) }
        ensures { Advances self.old result self.new (λ x. self.new.reader.at ≡ self.old.reader.at + 1) (self.new.reader.at ≡ self.old.reader.at) }
    {
        self.reader.step()
    }

    // Past the end of the line, where byte 10 stands or no byte.
    #[inline(always)]
    fn end(&mut self) -> Result<(), ReadFault>
        requires { MatchOption (next_byte self.now) (Unit {0}) (λ b. b ≡ 10) }
        ensures { Finishes self.old result self.new }
    {
        self.reader.end_line()?;
        self.start = self.reader.at;
        Ok(())
    }
}
