ghost use Rattle.std.specs.Prelude.{◌≡◌, ◌≤◌, ◌∷◌, ◌++◌, length, decimal};
ghost use Rattle.codes.specs.Members.{members};
ghost use Rattle.tokens.specs.Lines.{listed};
ghost use Rattle.answers.specs.Answers.{one, two, group, groups, agreed};
ghost use Rattle.answers.specs.Putting.{Puts};

use codes::set::CodeSet;
use itoa::Buffer;
use settlement::verdict::Agreement;

// A line with one number behind its words.
pub(crate) fn put_one(list: &mut [u8], words: &[u8], number: u32) -> usize
    ensures { Puts list.old 0 (one words.now number) list.new result }
{
    let end = put(list, 0, words);
    let end = put_number(list, end, number);
    put(list, end, b")\n")
}

// A line with two numbers.
pub(crate) fn put_two(list: &mut [u8], words: &[u8], first: u32, second: u32) -> usize
    ensures { Puts list.old 0 (two words.now first second) list.new result }
{
    let end = put(list, 0, words);
    let end = put_number(list, end, first);
    let end = put_listed(list, end, second);
    put(list, end, b")\n")
}

// What an agreed plan allows: both rosters, and the possible codes of each day.
pub(crate) fn put_agreement(list: &mut [u8], agreement: &Agreement) -> usize
    ensures { Puts list.old 0 (agreed agreement.now) list.new result }
{
    let end = put(list, 0, b"(agreed (lean");
    let end = put_roster(list, end, agreement.lean.as_slice());
    let end = put(list, end, b") (full");
    let end = put_roster(list, end, agreement.full.as_slice());
    let end = put(list, end, b") (keep");
    let end = put_groups(list, end, agreement.possible.as_slice());
    put(list, end, b"))\n")
}

fn put_roster(list: &mut [u8], at: usize, roster: &[u8]) -> usize
    ensures { Puts list.old at (listed roster.now) list.new result }
{
    let mut end = at;
    for code in roster {
        end = put_listed(list, end, u32::from(*code));
    }
    end
}

fn put_groups(list: &mut [u8], at: usize, sets: &[CodeSet]) -> usize
    requires { length sets.now ≤ 128 }
    ensures { Puts list.old at (groups 1 sets.now) list.new result }
{
    let mut end = at;
    for (index, set) in sets.iter().enumerate() {
        end = put_group(list, end, index as u32 + 1, *set);
    }
    end
}

// The day, and behind it its codes.
fn put_group(list: &mut [u8], at: usize, day: u32, set: CodeSet) -> usize
    ensures { Puts list.old at (group day set) list.new result }
{
    let end = put(list, at, b" (");
    let mut end = put_number(list, end, day);
    for code in set.codes() {
        end = put_listed(list, end, code);
    }
    put(list, end, b")")
}

// A number with a blank before it.
fn put_listed(list: &mut [u8], at: usize, number: u32) -> usize
    ensures { Puts list.old at (32 ∷ decimal number) list.new result }
{
    let end = put(list, at, b" ");
    put_number(list, end, number)
}

fn put_number(list: &mut [u8], at: usize, number: u32) -> usize
    ensures { Puts list.old at (decimal number) list.new result }
{
    let mut buffer = Buffer::new();
    put(list, at, buffer.format(number).as_bytes())
}

// Puts the bytes into the list from `at` on, where they fit, and says where they end. So with a list of no bytes a line is
// only measured.
pub(crate) fn put(list: &mut [u8], at: usize, bytes: &[u8]) -> usize
    ensures { Puts list.old at bytes.now list.new result }
{
    let end = at.saturating_add(bytes.len());
    if end <= list.len() {
        list[at..end].copy_from_slice(bytes);
    }
    end
}
