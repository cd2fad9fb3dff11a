ghost use Rattle.std.specs.Prelude.{◌≡◌, ◌≢◌, true, MatchOption};
ghost use Rattle.reader.specs.Forms.{Goes, Stuck};
ghost use Rattle.reader.specs.Left.{shape, left, apart, ahead};

// What may still come on a line. The rest of a form is held as text, where `#` stands for a number and `*` for a list of
// numbers, each behind a blank.
#[derive(Clone, Copy)]
pub enum State {
    // The rest of the head that all sheet forms share, and then the name of a kind.
    Sheet(&'static [u8]),
    // Any later line.
    Line,
    // A later line's name and what follows it.
    Call,
    // The same for the names that begin with s, behind this letter.
    CallAfterS,
    // The rest of a form.
    Text(&'static [u8]),
    // A number, and then the rest of a form.
    Number(&'static [u8]),
    // At the most so many more digits of a number, and then the rest of a form.
    Digits(u8, &'static [u8]),
}

// What may come after `byte`, where the rest of a form may come before it.
pub(crate) fn after_text(rest: &'static [u8], byte: u8) -> Option<State>
    requires { apart rest.now ≡ true }
    ensures step { MatchOption result (Stuck byte (shape rest.now)) (λ t. Goes byte (shape rest.now) (left t)) }
    ensures inside { MatchOption result (Unit {0}) (λ t. byte ≢ 10) }
    ensures apart { MatchOption result (Unit {0}) (λ t. apart (ahead t) ≡ true) }
{
    // No sheet has a byte like the marks of a number and of a list. The byte that is due comes first, as most are that.
    let is_mark = byte == b'#' || byte == b'*';
    match (rest, byte) {
        ([due, rest @ ..], _) if *due == byte && !is_mark => Some(State::Text(rest)),
        ([b'#', rest @ ..], b'0') => Some(State::Digits(0, rest)),
        ([b'#', rest @ ..], b'1'..=b'9') => Some(State::Digits(5, rest)),
        ([b'*', ..], b' ') => Some(State::Number(rest)),
        ([b'*', b')', rest @ ..], b')') => Some(State::Text(rest)),
        ([b'#' | b'*', ..], _) => None,
        _ => None,
    }
}
