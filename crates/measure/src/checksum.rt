use codes::set::CodeSet;
use ledger::call::Call;
use limits::link::{Limit, Link};
use reader::place::{FaultKind, ReadFault};
use sheet::code_list::CodeList;
use sheet::start::Start;

// A number that depends on all numbers added and on their order.
#[derive(Drop)]
pub(crate) struct Checksum(pub(crate) i32);

impl Checksum {
    pub(crate) fn add(&mut self, number: i32) {
        self.0 = self.0.wrapping_mul(31).wrapping_add(number);
    }

    pub(crate) fn add_totals(&mut self, totals: &[i16]) {
        for total in totals {
            self.add(i32::from(*total));
        }
    }

    // How many codes each set has, and the smallest of them.
    pub(crate) fn add_sets(&mut self, sets: &[CodeSet]) {
        for set in sets {
            self.add(set.len().cast_signed());
            self.add(set.smallest().map_or(-1, u32::cast_signed));
        }
    }

    pub(crate) fn add_roster(&mut self, roster: &[u8]) {
        for code in roster {
            self.add(i32::from(*code));
        }
    }

    pub(crate) fn add_links(&mut self, links: &[Link]) {
        for link in links {
            let (limit, number) = match link.limit {
                Limit::Most(rule) => (0, rule),
                Limit::Least(rule) => (1, rule),
                Limit::Heaviest(day) => (2, day),
                Limit::Lightest(day) => (3, day),
            };
            self.add(limit);
            self.add(number.cast_signed());
            self.add(i32::from(link.from.0));
            self.add(i32::from(link.to.0));
            self.add(i32::from(link.allowance));
        }
    }

    fn add_numbers(&mut self, numbers: &[u32]) {
        for number in numbers {
            self.add(number.cast_signed());
        }
    }

    // The codes of a list, and whether it has other numbers.
    fn add_codes(&mut self, list: &CodeList) {
        for code in list.codes.codes() {
            self.add(code.cast_signed());
        }
        self.add(i32::from(list.goes_above));
    }

    pub(crate) fn add_start(&mut self, start: &Start) {
        match start {
            Start::Duty { days, codes } => {
                self.add_numbers(&[0, *days]);
                self.add_codes(codes);
            }
            Start::Collection {
                days,
                codes,
                counts,
            } => {
                self.add_numbers(&[1, *days]);
                self.add_codes(codes);
                self.add_codes(counts);
            }
            Start::Boxes { days, low, high } => self.add_numbers(&[2, *days, *low, *high]),
        }
    }

    pub(crate) fn add_call(&mut self, call: &Call) {
        match call {
            Call::Rule {
                first,
                last,
                least,
                most,
            } => self.add_numbers(&[0, *first, *last, *least, *most]),
            Call::Slide { width, least, most } => self.add_numbers(&[1, *width, *least, *most]),
            Call::Withdraw { number } => self.add_numbers(&[2, *number]),
            Call::Strike { day, code } => self.add_numbers(&[3, *day, *code]),
            Call::Grant { day, code } => self.add_numbers(&[4, *day, *code]),
            Call::Settle => self.add_numbers(&[5]),
        }
    }

    pub(crate) fn add_fault(&mut self, fault: &ReadFault) {
        let kind = match fault.kind {
            FaultKind::Bytes => 0,
            FaultKind::Form => 1,
        };
        self.add_numbers(&[kind, fault.place.line, fault.place.column]);
    }
}
