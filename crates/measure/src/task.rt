use crate::made_up::Sort;
use anyhow::{anyhow, bail};
use std::fmt;
use std::str::FromStr;

#[derive(Clone, Copy, PartialEq, Eq, Debug)]
pub(crate) enum Work {
    Build,
    Judge,
    // Judging too.
    Close,
    // Building the plan's system, judging and closing too.
    Settle,
}

impl FromStr for Work {
    type Err = anyhow::Error;

    fn from_str(word: &str) -> anyhow::Result<Work> {
        match word {
            "build" => Ok(Work::Build),
            "judge" => Ok(Work::Judge),
            "close" => Ok(Work::Close),
            "settle" => Ok(Work::Settle),
            _ => Err(anyhow!("no work: {word}")),
        }
    }
}

impl fmt::Display for Work {
    fn fmt<W: fmt::Write>(&self, f: &mut fmt::Formatter<W>) -> fmt::Result {
        f.pad(match self {
            Work::Build => "build",
            Work::Judge => "judge",
            Work::Close => "close",
            Work::Settle => "settle",
        })
    }
}

// What is to be done, and how often.
#[derive(Clone, Copy)]
pub(crate) struct Task {
    pub(crate) days: u32,
    pub(crate) rules: u32,
    pub(crate) sort: Sort,
    pub(crate) work: Work,
    pub(crate) times: u32,
}

impl Task {
    pub(crate) fn read(words: &[String]) -> anyhow::Result<Task> {
        let [days, rules, sort, work, times] = words else {
            bail!("usage: measure DAYS RULES SORT WORK TIMES");
        };
        Ok(Task {
            days: days.parse::<u32>()?,
            rules: rules.parse::<u32>()?,
            sort: sort.parse::<Sort>()?,
            work: work.parse::<Work>()?,
            times: times.parse::<u32>()?,
        })
    }
}

impl fmt::Display for Task {
    fn fmt<W: fmt::Write>(&self, f: &mut fmt::Formatter<W>) -> fmt::Result {
        write!(
            f,
            "{} days, {} rules, {}, {}, {} times",
            self.days, self.rules, self.sort, self.work, self.times
        )
    }
}
