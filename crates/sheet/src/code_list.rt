ghost use Rattle.std.specs.Prelude.{ℕ, List, [], ◌∷◌, ◌++◌};
ghost use Rattle.sheet.specs.CodeLists.{Lists};

use codes::set::CodeSet;

// A list of numbers, of which only this is kept: the set of the codes in it, and whether one of them is above 63.
#[derive(Clone, Copy, PartialEq, Eq, Debug)]
pub struct CodeList {
    pub codes: CodeSet,
    pub goes_above: bool,
}

impl CodeList {
    pub fn new() -> CodeList
        ensures { Lists result [] }
    {
        CodeList {
            codes: CodeSet::empty(),
            goes_above: false,
        }
    }

    // Puts a number behind the others. One that is listed already changes nothing.
    pub fn push(&mut self, number: u32)
        ensures { (ns : List ℕ) → Lists self.old ns → Lists self.new (ns ++ (number ∷ [])) }
    {
        self.codes = self.codes.with(number);
        self.goes_above = self.goes_above || number > 63;
    }
}
