// Answers the sheet on standard input: writes what carry writes to standard output, and nothing else.
#![tactic(auto)]

ghost use Rattle.std.specs.Prelude.{◌≡◌, IfOk, OnOk, IfSome};
ghost use Rattle.planner.specs.Written.{WritesAnswers, sheet_of};

use carry::carry;
use std::alloc::Global;
use std::io;
use std::io::{Read, Write};

// A sheet has at most 16,384 bytes. One more tells that a text is too long, and carry looks at no byte after it.
const MOST_READ: u64 = 16_385;

const ROOM: usize = 65_536;

fn main(rt: HostRuntime) -> io::Result<()> {
    answer(rt.alloc(), rt.stdin(), &mut io::writer(&rt))
}

fn answer<R: Read + Drop, W: Write>(alloc: Global, reader: R, writer: &mut W) -> io::Result<()>
    ensures { OnOk result (IfSome (R.remaining reader) (WritesAnswers (W.contents writer.old) (W.contents writer.new))) }
{
    let sheet = read_sheet(alloc, reader)?;
    let mut answers = [0; ROOM];
    let carried = carry(&sheet, &mut answers);
    writer.write_all(&answers[..carried.count])
}

// A read may give fewer bytes than there are: reads on to the end of the input, or to the last byte that is wanted.
fn read_sheet<R: Read + Drop>(alloc: Global, reader: R) -> io::Result<Vec<u8>>
    ensures { IfOk result (λ sheet. IfSome (R.remaining reader) (λ input. sheet.items ≡ sheet_of input)) }
{
    let mut sheet = Vec::new(alloc);
    reader.take(MOST_READ).read_to_end(&mut sheet)?;
    Ok(sheet)
}
