ghost use Rattle.std.specs.Prelude.{◌≡◌, ◌≤◌, length, map};
ghost use Rattle.ledger.specs.Ledgers.{failing, holds_code};

use entry::traits::Entry;
use ledger::places::counted_from_one;

// The first day whose entry holds no code.
pub(crate) fn first_empty<E: Entry>(entries: &[E]) -> Option<u32>
    requires { length entries.now ≤ 128 }
    ensures { result ≡ failing holds_code (map E.meaning entries.now) }
{
    counted_from_one(entries.iter().position(|entry| !holds_code(entry)))
}

fn holds_code<E: Entry>(entry: &E) -> bool
    ensures { result ≡ holds_code (E.meaning entry.now) }
{
    (0..64).any(|code| entry.holds(code))
}
