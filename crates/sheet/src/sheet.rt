ghost use Rattle.std.specs.Prelude.{◌≡◌, ◌<◌};
ghost use Rattle.sheet.specs.Reading.{Reads};

use crate::draft::Draft;
use crate::fault::LineFault;
use crate::start::Start;
use ledger::call::Call;
use tokens::token::Token;
use tokens::tokens::Tokens;

// A sheet whose first line is read: the calls that are still to come.
#[derive(Clone, Copy)]
pub struct Sheet<'a> {
    tokens: Tokens<'a>,
    ghost between: { (tokens.start ≡ tokens.reader.at) × (0 < tokens.start) },
}

impl<'a> Sheet<'a> {
    ghost use Rattle.std.specs.Prelude.{ℕ};
    ghost use Rattle.tokens.specs.Lines.{Line};
    ghost use Rattle.tokens.specs.Sheets.{LineAt};
    ghost use Rattle.sheet.specs.Sheets.{text_of, place_of, Opens, IsStart, GoesOn, IsCall};

    // Reads the first line of a text.
    pub fn open(text: &'a [u8]) -> Result<(Start, Sheet<'a>), LineFault>
        ensures answer { Opens text.now result }
        ensures only { (l : Line) (n : ℕ) → LineAt text.now 0 l n → IsStart l n result }
    {
        let mut tokens = Tokens::new(text);
        let draft = read_line(&mut tokens)?;
        Ok((draft.start(), Sheet { tokens }))
    }

    // Reads the next line; there is none where the text is over. A line at fault is not passed.
    pub fn next_call(&mut self) -> Result<Option<Call>, LineFault>
        ensures answer { GoesOn self.old result self.new }
        ensures only { (l : Line) (n : ℕ) → LineAt (text_of self.old) (place_of self.old) l n → IsCall l n result self.new }
    {
        let mut tokens = self.tokens;
        if tokens.is_over() {
            return Ok(None);
        }
        let draft = read_line(&mut tokens)?;
        self.tokens = tokens;
        Ok(Some(draft.call()))
    }
}

// What the tokens of one line say.
#[inline(always)]
fn read_line(tokens: &mut Tokens<'_>) -> Result<Draft, LineFault>
    requires { tokens.now.start ≡ tokens.now.reader.at }
    ensures { Reads tokens.old result tokens.new }
{
    let mut draft = Draft::new();
    loop {
        match tokens.next()? {
            Token::Open { .. } | Token::Close { .. } => {}
            Token::Word { text, .. } => draft.word(text),
            Token::Number { digits, .. } => draft.number(digits),
            Token::End => return Ok(draft),
        }
    }
}
