use crate::checksum::Checksum;
use crate::made_up::Draws;
use crate::sheets::{ROOM, SheetSort, made_up_sheet};
use anyhow::{anyhow, bail};
use bounded::Bounded;
use sheet::fault::LineFault;
use sheet::sheet::Sheet;
use std::fmt;
use std::str::FromStr;

#[derive(Clone, Copy, PartialEq, Eq, Debug)]
pub(crate) enum SheetWork {
    // Reading the whole sheet.
    Read,
    // Reading it with another byte in one place, and up to this place.
    Spoil,
}

impl FromStr for SheetWork {
    type Err = anyhow::Error;

    fn from_str(word: &str) -> anyhow::Result<SheetWork> {
        match word {
            "read" => Ok(SheetWork::Read),
            "spoil" => Ok(SheetWork::Spoil),
            _ => Err(anyhow!("no work on a sheet: {word}")),
        }
    }
}

impl fmt::Display for SheetWork {
    fn fmt<W: fmt::Write>(&self, f: &mut fmt::Formatter<W>) -> fmt::Result {
        f.pad(match self {
            SheetWork::Read => "read",
            SheetWork::Spoil => "spoil",
        })
    }
}

// What is to be done with a sheet of at most so many bytes, and how often.
#[derive(Clone, Copy)]
pub(crate) struct SheetTask {
    pub(crate) bytes: u32,
    pub(crate) sort: SheetSort,
    pub(crate) work: SheetWork,
    pub(crate) times: u32,
}

impl SheetTask {
    pub(crate) fn read(words: &[String]) -> anyhow::Result<SheetTask> {
        let [bytes, sort, work, times] = words else {
            bail!("usage: measure sheet BYTES SORT WORK TIMES");
        };
        Ok(SheetTask {
            bytes: bytes.parse::<u32>()?,
            sort: sort.parse::<SheetSort>()?,
            work: work.parse::<SheetWork>()?,
            times: times.parse::<u32>()?,
        })
    }
}

impl fmt::Display for SheetTask {
    fn fmt<W: fmt::Write>(&self, f: &mut fmt::Formatter<W>) -> fmt::Result {
        write!(
            f,
            "sheet of {}, {}, {}, {} times",
            self.bytes, self.sort, self.work, self.times
        )
    }
}

// The number of bytes of the sheet, and what its readings add up to.
pub(crate) fn work_sheet(task: &SheetTask) -> (usize, Checksum) {
    let mut checksum = Checksum(0);
    let mut text = made_up_sheet(task.bytes, task.sort);
    let mut draws = Draws(task.times);
    for _ in 0..task.times {
        match task.work {
            SheetWork::Read => read_once(text.as_slice(), &mut checksum),
            SheetWork::Spoil => spoil_once(&mut text, &mut draws, &mut checksum),
        }
    }
    (text.len(), checksum)
}

pub(crate) fn read_once(text: &[u8], checksum: &mut Checksum) {
    if let Err(fault) = read_all(text, checksum) {
        checksum.add_fault(&fault.read);
    }
}

fn read_all(text: &[u8], checksum: &mut Checksum) -> Result<(), LineFault> {
    let (start, mut sheet) = Sheet::open(text)?;
    checksum.add_start(&start);
    // Each line has a byte.
    for _ in 0..text.len() {
        let Some(call) = sheet.next_call()? else {
            break;
        };
        checksum.add_call(&call);
    }
    Ok(())
}

// Every other time the other byte is one of the sheet's own.
fn spoil_once(text: &mut Bounded<u8, ROOM>, draws: &mut Draws, checksum: &mut Checksum) {
    let last = text.len().saturating_sub(1) as u32;
    let at = draws.between(0, last) as usize;
    let other = draws.between(0, last) as usize;
    let byte = if draws.between(0, 1) == 0 {
        byte_at(text, other)
    } else {
        draws.between(0, 255).min(255) as u8
    };
    let before = byte_at(text, at);
    let _ = text.set(at, byte);
    read_once(text.as_slice(), checksum);
    let (part, _) = text.as_slice().split_at(at.min(text.len()));
    read_once(part, checksum);
    let _ = text.set(at, before);
}

fn byte_at(text: &Bounded<u8, ROOM>, index: usize) -> u8 {
    text.as_slice().get(index).copied().unwrap_or(0)
}
