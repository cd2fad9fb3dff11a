// What a settle and the questions to it are answered by the rules, from trying every roster.

use crate::answer::{Answer, Row, fitting, naming, topmost};
use crate::model::Plan;
use crate::rosters::Lawful;
use std::alloc::Global;

#[derive(Drop)]
pub(crate) struct Outcome<'l> {
    pub(crate) plan: Plan<'l>,
    // The settlement's own refusal.
    refusal: Option<Row>,
    pub(crate) lawful: Lawful,
}

impl<'l> Outcome<'l> {
    // Of a refused plan no roster is tried.
    pub(crate) fn of(alloc: Global, plan: Plan<'l>) -> anyhow::Result<Outcome<'l>> {
        let refusal = topmost(&[
            fitting(1, plan.has_too_many_days()),
            naming(2, plan.empty_day()),
            naming(8, plan.rule_past_days()),
        ]);
        let lawful = match refusal {
            Some(_) => Lawful::new(alloc, 0)?,
            None => Lawful::of(alloc, &plan)?,
        };
        Ok(Outcome {
            plan,
            refusal,
            lawful,
        })
    }

    pub(crate) fn verdict(&self) -> Answer {
        let is_blocked = self.lawful.count == 0;
        let verdict = if is_blocked {
            Answer::Blocked
        } else {
            Answer::Agreed
        };
        Answer::unless(self.refusal, verdict)
    }

    // The settlement's own refusal takes its place by number among the rows of each question.
    pub(crate) fn possible(&self, day: u32, code: u32) -> Answer {
        let row = topmost(&[
            self.refusal,
            fitting(3, self.plan.day(day).is_none()),
            fitting(9, !self.plan.kind.knows(code)),
        ]);
        Answer::unless(row, Answer::Possible(self.lawful.have(day, code)))
    }

    // Lean or full, into a list of so many bytes.
    pub(crate) fn roster(&self, room: usize) -> Answer {
        let row = topmost(&[
            self.refusal,
            fitting(12, self.verdict() == Answer::Blocked),
            fitting(14, room < self.plan.days.len()),
        ]);
        Answer::unless(row, Answer::Done)
    }

    // A link that the chain does not have.
    pub(crate) fn no_link(&self) -> Answer {
        Answer::unless(topmost(&[self.refusal, fitting(13, true)]), Answer::Link)
    }
}
