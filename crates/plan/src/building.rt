ghost use Rattle.std.specs.Prelude.{◌≤◌, [], length};
ghost use Rattle.ledger.specs.Ledgers.{Ledger, ledger, with_rules};
ghost use Rattle.plan.specs.Building.{Builds, RulesFit};

use entry::traits::Entry;
use ledger::book::Book;
use limits::system::System;

// The limits of the days alone.
pub(crate) fn of_days<E: Entry>(entries: &[E]) -> System
    requires { length entries.now ≤ 128 }
    ensures { Builds (ledger E.Entry entries.now []) result }
{
    let mut system = System::new();
    for entry in entries {
        let _ = system.add_day(entry.lightest(), entry.heaviest());
    }
    system
}

// Adds the limits of the rules in force, each under its number in the book.
pub(crate) fn add_rules(system: &mut System, book: &Book)
    ensures { (l : Ledger) → RulesFit (with_rules l book.now) → Builds (with_rules l []) system.old → Builds (with_rules l book.now) system.new }
{
    for (index, rule) in book.rules().iter().enumerate() {
        if rule.in_force {
            let number = index as u32 + 1;
            let _ = system.add_rule(number, rule.first, rule.last, rule.least, rule.most);
        }
    }
}
