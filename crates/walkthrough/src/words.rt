use crate::week::Shift;
use entry::traits::Entry;
use kinds::boxes::Boxes;
use kinds::collection::Collection;
use kinds::duty::Duty;
use papers::Papers;
use std::alloc::{AllocError, Global};
use std::fmt;

#[derive(Clone, Copy)]
pub(crate) struct DutyWords(pub(crate) Duty);

impl fmt::Display for DutyWords {
    fn fmt<W: fmt::Write>(&self, f: &mut fmt::Formatter<W>) -> fmt::Result {
        let [off, on] = [Shift::Off, Shift::On].map(|shift| self.0.holds(u32::from(shift)));
        f.pad(match (off, on) {
            (true, true) => "off or on",
            (true, false) => "off",
            (false, true) => "on",
            (false, false) => "none",
        })
    }
}

// The boxes stand in the last column, so their numbers are not padded.
#[derive(Clone, Copy)]
pub(crate) struct BoxWords(pub(crate) Boxes);

impl fmt::Display for BoxWords {
    fn fmt<W: fmt::Write>(&self, f: &mut fmt::Formatter<W>) -> fmt::Result {
        let low = self.0.lightest();
        let high = self.0.heaviest();
        if !self.0.holds(low) {
            f.pad("none")
        } else if low == high {
            write!(f, "{low}")
        } else {
            write!(f, "{low} to {high}")
        }
    }
}

// The titles fill a column together, so they are put into one text before it is padded.
pub(crate) fn titles(heap: Global, open: &Collection) -> Result<String, AllocError> {
    let mut words = String::new(heap);
    for papers in [Papers::Letters, Papers::Drafts, Papers::Maps] {
        if open.holds(u32::from(papers)) {
            if !words.is_empty() {
                words.push_str(", ")?;
            }
            write!(words, "{papers}")?;
        }
    }
    Ok(words)
}
