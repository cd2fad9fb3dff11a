// How much was answered and compared.

use crate::answer::Answer;
use std::fmt;

// How settles ended.
#[derive(Clone, Copy)]
pub(crate) struct Settles {
    agreed: u64,
    blocked: u64,
    refused: u64,
}

pub(crate) const NO_SETTLES: Settles = Settles {
    agreed: 0,
    blocked: 0,
    refused: 0,
};

impl Settles {
    fn all(&self) -> u64 {
        self.agreed
            .wrapping_add(self.blocked)
            .wrapping_add(self.refused)
    }

    fn add(&mut self, verdict: Answer) {
        match verdict {
            Answer::Agreed => add(&mut self.agreed, 1),
            Answer::Blocked => add(&mut self.blocked, 1),
            _ => add(&mut self.refused, 1),
        }
    }
}

impl fmt::Display for Settles {
    fn fmt<W: fmt::Write>(&self, f: &mut fmt::Formatter<W>) -> fmt::Result {
        write!(
            f,
            "{} settles: {} agreed, {} blocked, {} refused",
            self.all(),
            self.agreed,
            self.blocked,
            self.refused
        )
    }
}

// How many of each thing were compared.
#[derive(Clone, Copy)]
pub(crate) struct Tally {
    // Of the plans of one kind.
    pub(crate) settles: Settles,
    pub(crate) verdicts: u64,
    pub(crate) built: u64,
    pub(crate) calls: u64,
    pub(crate) entries: u64,
    pub(crate) rules: u64,
    pub(crate) codes: u64,
    pub(crate) lists: u64,
    pub(crate) rosters: u64,
    pub(crate) totals: u64,
    pub(crate) links: u64,
    pub(crate) checks: u64,
    // How often each row was the answer, but to `possible`.
    rows: [u64; 14],
}

pub(crate) fn add(count: &mut u64, more: usize) {
    *count = count.wrapping_add(more as u64);
}

impl Tally {
    pub(crate) fn new() -> Tally {
        Tally {
            settles: NO_SETTLES,
            verdicts: 0,
            built: 0,
            calls: 0,
            entries: 0,
            rules: 0,
            codes: 0,
            lists: 0,
            rosters: 0,
            totals: 0,
            links: 0,
            checks: 0,
            rows: [0; 14],
        }
    }

    pub(crate) fn add_settle(&mut self, verdict: Answer) {
        self.settles.add(verdict);
        add(&mut self.verdicts, 1);
        self.add_row(verdict);
    }

    pub(crate) fn add_row(&mut self, answer: Answer) {
        if let Answer::Refused(row) = answer {
            let index = (row.number as usize).checked_sub(1);
            if let Some(count) = index.and_then(|index| self.rows.get_mut(index)) {
                add(count, 1);
            }
        }
    }
}

impl fmt::Display for Tally {
    fn fmt<W: fmt::Write>(&self, f: &mut fmt::Formatter<W>) -> fmt::Result {
        writeln!(f, "Compared with the rules:")?;
        writeln!(f, "{:>9} entries built", self.built)?;
        writeln!(f, "{:>9} calls", self.calls)?;
        writeln!(f, "{:>9} entries and", self.entries)?;
        writeln!(f, "{:>9} rules in books, after calls", self.rules)?;
        writeln!(f, "{:>9} verdicts", self.verdicts)?;
        writeln!(f, "{:>9} answers of possible", self.codes)?;
        writeln!(f, "{:>9} lists for lean and full, with", self.lists)?;
        writeln!(f, "{:>9} rosters and", self.rosters)?;
        writeln!(f, "{:>9} totals", self.totals)?;
        writeln!(f, "{:>9} links", self.links)?;
        writeln!(f, "{:>9} checks", self.checks)?;
        write!(f, "Refused, by rows:")?;
        for (number, count) in (1..u32::MAX).zip(&self.rows) {
            write!(f, " {number}: {count}")?;
        }
        Ok(())
    }
}
