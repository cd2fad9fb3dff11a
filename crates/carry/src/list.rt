ghost use Rattle.std.specs.Prelude.{◌≤◌, length};

use crate::fault::CarryFault;
use answers::answer::Answer;

// The list that the answers go into, of which the first `count` bytes are written.
#[derive(Drop)]
pub(crate) struct AnswerList<'a> {
    list: &'a mut [u8],
    count: usize,
    ghost fits: { count ≤ length list.now },
}

impl<'a> AnswerList<'a> {
    ghost use Rattle.std.specs.Prelude.{◌≡◌};
    ghost use Rattle.carry.specs.Ends.{last_line};
    ghost use Rattle.carry.specs.AnswerLists.{Adds, Extends, room};

    pub(crate) fn new(list: &'a mut [u8]) -> AnswerList<'a>
        ensures same_list { result.list.ghost_name ≡ list.entry.ghost_name }
        ensures list { result.list.now ≡ list.old }
        ensures count { result.count ≡ 0 }
    {
        AnswerList { list, count: 0 }
    }

    pub(crate) fn count(&self) -> usize
        ensures { result ≡ self.now.count }
    {
        self.count
    }

    // Writes one more answer, where it fits.
    pub(crate) fn add(&mut self, answer: Answer<'_>) -> Result<(), CarryFault>
        ensures { Adds self.old answer.entry result self.new }
    {
        let rest = &mut self.list[self.count..];
        match answer.write(rest) {
            Some(count) => {
                self.count += count;
                Ok(())
            }
            None => Err(CarryFault::Full),
        }
    }

    // Writes the line that an end has of its own, where it fits.
    pub(crate) fn close(&mut self, ended: Result<(), CarryFault>)
        ensures { Extends self.old (last_line (room self.old) ended) self.new }
    {
        let last = match ended {
            Ok(()) | Err(CarryFault::Full) => return,
            Err(CarryFault::Line(fault)) => Answer::Fault(fault.read),
            Err(CarryFault::Refused(refusal)) => Answer::Refused(refusal),
        };
        let _ = self.add(last);
    }
}
