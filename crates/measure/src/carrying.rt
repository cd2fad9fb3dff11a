use crate::checksum::Checksum;
use crate::made_up::Sort;
use crate::reading::read_once;
use crate::whole_sheets::{Kind, whole_sheet};
use anyhow::{anyhow, bail};
use carry::carry;
use std::fmt;
use std::str::FromStr;

// The answers to any sheet that is made up fit into so many bytes.
pub(crate) const LIST: usize = 262_144;

#[derive(Clone, Copy, PartialEq, Eq, Debug)]
pub(crate) enum WholeWork {
    // Reading the sheet.
    Read,
    // Carrying it without its settles.
    Edit,
    // Carrying it.
    Carry,
}

impl FromStr for WholeWork {
    type Err = anyhow::Error;

    fn from_str(word: &str) -> anyhow::Result<WholeWork> {
        match word {
            "read" => Ok(WholeWork::Read),
            "edit" => Ok(WholeWork::Edit),
            "carry" => Ok(WholeWork::Carry),
            _ => Err(anyhow!("no work on a whole sheet: {word}")),
        }
    }
}

impl fmt::Display for WholeWork {
    fn fmt<W: fmt::Write>(&self, f: &mut fmt::Formatter<W>) -> fmt::Result {
        f.pad(match self {
            WholeWork::Read => "read",
            WholeWork::Edit => "edit",
            WholeWork::Carry => "carry",
        })
    }
}

// What is to be done with a whole sheet, and how often.
#[derive(Clone, Copy)]
pub(crate) struct WholeTask {
    pub(crate) kind: Kind,
    pub(crate) sort: Sort,
    pub(crate) work: WholeWork,
    pub(crate) times: u32,
}

impl WholeTask {
    pub(crate) fn read(words: &[String]) -> anyhow::Result<WholeTask> {
        let [kind, sort, work, times] = words else {
            bail!("usage: measure whole KIND SORT WORK TIMES");
        };
        Ok(WholeTask {
            kind: kind.parse::<Kind>()?,
            sort: sort.parse::<Sort>()?,
            work: work.parse::<WholeWork>()?,
            times: times.parse::<u32>()?,
        })
    }
}

impl fmt::Display for WholeTask {
    fn fmt<W: fmt::Write>(&self, f: &mut fmt::Formatter<W>) -> fmt::Result {
        write!(
            f,
            "whole sheet of {}, {}, {}, {} times",
            self.kind, self.sort, self.work, self.times
        )
    }
}

// What came of a task: the bytes of the sheet, those of its answers, and what all results add up to.
#[derive(Drop)]
pub(crate) struct Outcome {
    pub(crate) bytes: usize,
    pub(crate) answers: usize,
    pub(crate) checksum: Checksum,
}

// The bytes of the answers are added once, behind all rounds, so that they are not in what is measured.
pub(crate) fn work_whole(task: &WholeTask, list: &mut [u8]) -> Outcome {
    let text = whole_sheet(task.kind, task.sort, task.work != WholeWork::Edit);
    let mut checksum = Checksum(0);
    let mut answers = 0;
    for _ in 0..task.times {
        match task.work {
            WholeWork::Read => read_once(text.as_slice(), &mut checksum),
            WholeWork::Edit | WholeWork::Carry => {
                let carried = carry(text.as_slice(), list);
                checksum.add(carried.number().cast_signed());
                answers = carried.count;
            }
        }
    }
    for byte in list.iter().take(answers) {
        checksum.add(i32::from(*byte));
    }
    Outcome {
        bytes: text.len(),
        answers,
        checksum,
    }
}
