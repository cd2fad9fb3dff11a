ghost use Rattle.std.specs.Prelude.{◌≡◌, map, length};
ghost use Rattle.std.specs.Fn.{FnOnceReturnsAtMut};
ghost use Rattle.ledger.specs.declared.call.Call.TheVariants as calls;
ghost use Rattle.ledger.specs.Edits.{CountsDays, EditsDay, OnDay};

use entry::refusal::Refusal;
use entry::traits::Entry;

// A plan has at most so many days.
pub const DAYS: usize = 128;

// Takes a code out of the entry of one day.
pub fn strike<E: Entry>(entries: &mut [E], day: u32, code: u32) -> Result<(), Refusal>
    ensures { EditsDay E.Entry (calls.Strike day code) day entries.old result entries.new }
{
    edit_day(entries, day, |entry| entry.strike(code))
}

// Puts a code into the entry of one day.
pub fn grant<E: Entry>(entries: &mut [E], day: u32, code: u32) -> Result<(), Refusal>
    ensures { EditsDay E.Entry (calls.Grant day code) day entries.old result entries.new }
{
    edit_day(entries, day, |entry| entry.grant(code))
}

// The entry of the day is copied out, edited, and stored back whole.
fn edit_day<E: Entry, F: FnOnce(&mut E) -> Result<(), Refusal>>(
    entries: &mut [E],
    day: u32,
    edit: F,
) -> Result<(), Refusal>
    requires { F.IsAlwaysCallable edit }
    ensures { OnDay (FnOnceReturnsAtMut F.FnOnce edit) day entries.old result entries.new }
{
    let days = day_count(entries)?;
    if day == 0 || days < day {
        return Err(Refusal::NoSuchDay);
    }
    let at = day as usize - 1;
    let mut entry = entries[at];
    let answer = edit(&mut entry);
    entries[at] = entry;
    answer
}

// The number of days, which is the number of entries; refused where they are too many.
pub fn day_count<E: Entry>(entries: &[E]) -> Result<u32, Refusal>
    ensures { CountsDays E.meaning entries.now result }
{
    let days = entries.len();
    if days > DAYS {
        return Err(Refusal::TooManyDays);
    }
    Ok(days as u32)
}
