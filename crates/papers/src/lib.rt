// The kinds of papers that a day may open, and the code that stands for each.
#![tactic(auto)]

ghost use Rattle.std.specs.Prelude.{◌≡◌, Some};
ghost use Rattle.std.specs.Fmt.{padded};
ghost use Rattle.papers.specs.Papers.{code_of, title_of, papers_of};

use std::fmt;

// What is opened under one code.
#[derive(Clone, Copy, PartialEq, Eq, Debug)]
pub enum Papers {
    Letters = 3,
    Drafts = 7,
    Maps = 12,
}

// A number that is the code of no papers.
#[derive(Clone, Copy, PartialEq, Eq, Debug)]
pub struct UnknownPapers {
    pub code: u32,
}

impl From<Papers> for u32 {
    ghost from_gives = { λ papers code. code ≡ code_of papers };

    fn from(papers: Papers) -> u32 {
        papers as u32
    }
}

// A roster has a day's code in a byte.
impl From<Papers> for u8 {
    ghost from_gives = { λ papers code. code ≡ code_of papers };

    fn from(papers: Papers) -> u8 {
        papers as u8
    }
}

impl TryFrom<u32> for Papers {
    type Error = UnknownPapers;

    ghost try_from_gives = { λ code result. result ≡ papers_of code };

    fn try_from(code: u32) -> Result<Papers, UnknownPapers> {
        match code {
            3 => Ok(Papers::Letters),
            7 => Ok(Papers::Drafts),
            12 => Ok(Papers::Maps),
            _ => Err(UnknownPapers { code }),
        }
    }
}

impl fmt::Display for Papers {
    ghost output = { λ papers. Some (title_of papers) };

    ghost styled_output = { λ papers spec. Some (padded spec (title_of papers)) };

    fn fmt<W: fmt::Write>(&self, f: &mut fmt::Formatter<W>) -> fmt::Result {
        f.pad(match self {
            Papers::Letters => "letters",
            Papers::Drafts => "drafts",
            Papers::Maps => "maps",
        })
    }
}
