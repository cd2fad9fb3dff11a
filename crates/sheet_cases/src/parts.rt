use reader::place::Place;
use std::alloc::{AllocError, Global};
use std::fmt::Write;
use std::test::Fail;
use tokens::token::Token;
use tokens::tokens::Tokens;

// Writes a token behind its line and column, a number behind `#`, and byte 10 for the end of a line.
fn tell(told: &mut String, token: Token<'_>) -> Result<(), AllocError> {
    let (mark, bytes, place) = match token {
        Token::Open { place } => ("(", &[][..], place),
        Token::Close { place } => (")", &[][..], place),
        Token::Word { text, place } => ("", text, place),
        Token::Number { digits, place } => ("#", digits, place),
        Token::End => return told.push('\n'),
    };
    let Place { line, column } = place;
    write!(told, "{line}.{column}:{mark}")?;
    for byte in bytes {
        told.push(char::from(*byte))?;
    }
    told.push(' ')
}

// All tokens of a text.
fn told_tokens(alloc: Global, text: &[u8]) -> Result<String, Fail> {
    let mut tokens = Tokens::new(text);
    let mut told = String::new(alloc);
    // A text has fewer tokens than bytes, or as many.
    for _ in text {
        if tokens.is_over() {
            break;
        }
        tell(&mut told, tokens.next()?)?;
    }
    Ok(told)
}

// Texts that have one line of each form between them, with their tokens.
#[rattlefmt::skip]
const TEXTS: [(&str, &str); 3] = [
    (
        "(sheet duty 7 (codes 0 1))\n(rule (days 1 12) (count 0 8064))\n(slide 5 (count 2 3))\n",
        "1.1:( 1.2:sheet 1.8:duty 1.13:#7 1.15:( 1.16:codes 1.22:#0 1.24:#1 1.25:) 1.26:) \n\
         2.1:( 2.2:rule 2.7:( 2.8:days 2.13:#1 2.15:#12 2.17:) 2.19:( 2.20:count 2.26:#0 2.28:#8064 2.32:) 2.33:) \n\
         3.1:( 3.2:slide 3.8:#5 3.10:( 3.11:count 3.17:#2 3.19:#3 3.20:) 3.21:) \n",
    ),
    (
        "(sheet collection 10 (codes) (counts 9))\n(withdraw 512)\n(strike 2 34)\n",
        "1.1:( 1.2:sheet 1.8:collection 1.19:#10 1.22:( 1.23:codes 1.28:) 1.30:( 1.31:counts 1.38:#9 1.39:) 1.40:) \n\
         2.1:( 2.2:withdraw 2.11:#512 2.14:) \n\
         3.1:( 3.2:strike 3.9:#2 3.11:#34 3.13:) \n",
    ),
    (
        "(sheet boxes 999999 (span 0 63))\n(grant 128 0)\n(settle)\n",
        "1.1:( 1.2:sheet 1.8:boxes 1.14:#999999 1.21:( 1.22:span 1.27:#0 1.29:#63 1.31:) 1.32:) \n\
         2.1:( 2.2:grant 2.8:#128 2.12:#0 2.13:) \n\
         3.1:( 3.2:settle 3.8:) \n",
    ),
];

#[test]
fn tokens_of_each_form(rt: HostRuntime) -> Result<(), Fail> {
    for (text, expected) in TEXTS {
        let told = told_tokens(rt.alloc(), text.as_bytes())?;
        assert_eq!(rt; told.as_bytes(), expected.as_bytes(), "{told}");
    }
    Ok(())
}
