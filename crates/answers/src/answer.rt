ghost use Rattle.std.specs.Prelude.{◌≡◌, ◌++◌, length, drop, if◌then◌else◌, Some, None, nat_le};
ghost use Rattle.answers.specs.Answers.{written};
ghost use Rattle.answers.specs.Putting.{Puts};

use crate::writing::{put, put_agreement, put_one, put_two};
use entry::refusal::Refusal;
use reader::place::{FaultKind, ReadFault};
use settlement::verdict::Agreement;

// The answer to one line of a sheet.
#[derive(Clone, Copy)]
pub enum Answer<'a> {
    Duty(u32),
    Collection(u32),
    Boxes(u32),
    Rule(u32),
    Slide(Option<(u32, u32)>),
    Done,
    Blocked,
    Agreed(&'a Agreement),
    Refused(Refusal),
    Fault(ReadFault),
}

impl Answer<'_> {
    // Writes the answer's line, byte 10 included, into the front of the list, and says how many bytes it has. It is measured
    // first: where it does not fit, the list stays as it is.
    pub fn write(&self, list: &mut [u8]) -> Option<usize>
        ensures count { result ≡ (if nat_le (length (written self.now)) (length list.old) then Some (length (written self.now)) else None) }
        ensures list { list.new ≡ (if nat_le (length (written self.now)) (length list.old) then written self.now ++ drop (length (written self.now)) list.old else list.old) }
    {
        let count = self.put(&mut []);
        if count > list.len() {
            return None;
        }
        self.put(list);
        Some(count)
    }

    // Puts the line into the front of the list, where it fits, and says where it ends.
    fn put(&self, list: &mut [u8]) -> usize
        ensures { Puts list.old 0 (written self.now) list.new result }
    {
        match self {
            Answer::Duty(days) => put_one(list, b"(duty ", *days),
            Answer::Collection(days) => put_one(list, b"(collection ", *days),
            Answer::Boxes(days) => put_one(list, b"(boxes ", *days),
            Answer::Rule(number) => put_one(list, b"(rule ", *number),
            Answer::Slide(Some((first, last))) => put_two(list, b"(slide ", *first, *last),
            Answer::Slide(None) => put(list, 0, b"(slide none)\n"),
            Answer::Done => put(list, 0, b"(done)\n"),
            Answer::Blocked => put(list, 0, b"(blocked)\n"),
            Answer::Agreed(agreement) => put_agreement(list, agreement),
            Answer::Refused(refusal) => put_one(list, b"(refused ", refusal.number()),
            Answer::Fault(fault) => {
                let name: &[u8] = match fault.kind {
                    FaultKind::Bytes => b"(fault bytes ",
                    FaultKind::Form => b"(fault form ",
                };
                put_two(list, name, fault.place.line, fault.place.column)
            }
        }
    }
}
