use entry::refusal::Refusal;
use entry::traits::Entry;
use kinds::boxes::Boxes;
use kinds::collection::Collection;
use kinds::duty::Duty;
use papers::Papers;
use std::fmt;

#[derive(Clone, Copy)]
pub enum Weekday {
    Monday,
    Tuesday,
    Wednesday,
    Thursday,
    Friday,
}

impl fmt::Display for Weekday {
    fn fmt<W: fmt::Write>(&self, f: &mut fmt::Formatter<W>) -> fmt::Result {
        f.pad(match self {
            Weekday::Monday => "Monday",
            Weekday::Tuesday => "Tuesday",
            Weekday::Wednesday => "Wednesday",
            Weekday::Thursday => "Thursday",
            Weekday::Friday => "Friday",
        })
    }
}

// The two codes of duty, in the order of their numbers.
#[derive(Clone, Copy)]
pub enum Shift {
    Off,
    On,
}

impl From<Shift> for u32 {
    fn from(shift: Shift) -> u32 {
        shift as u32
    }
}

// One day of a reviewer from three sides, each with an entry of its kind.
#[derive(Clone, Copy)]
pub struct Day {
    pub weekday: Weekday,
    pub duty: Duty,
    pub papers: Collection,
    pub boxes: Boxes,
}

impl Day {
    fn new(weekday: Weekday, duty: Duty, open: &[u32], boxes: Boxes) -> Result<Day, Refusal> {
        // The donor's papers count, the maps do not.
        let counted = [Papers::Letters, Papers::Drafts].map(u32::from);
        let papers = Collection::new(open, &counted)?;
        Ok(Day {
            weekday,
            duty,
            papers,
            boxes,
        })
    }
}

// One reviewer's week, its days in their order.
#[derive(Clone, Copy)]
pub struct Week {
    pub days: [Day; 5],
}

impl Week {
    pub(crate) fn new() -> Result<Week, Refusal> {
        use Weekday::{Friday, Monday, Thursday, Tuesday, Wednesday};

        let [letters, drafts, maps] = [Papers::Letters, Papers::Drafts, Papers::Maps].map(
            u32::from,
        );
        let either = Duty::new(&[Shift::Off, Shift::On].map(u32::from))?;
        let on = Duty::new(&[u32::from(Shift::On)])?;
        let off = Duty::new(&[u32::from(Shift::Off)])?;
        Ok(Week {
            days: [
                Day::new(Monday, either, &[letters, drafts, maps], Boxes::new(0, 4)?)?,
                Day::new(Tuesday, on, &[letters, drafts], Boxes::new(1, 4)?)?,
                Day::new(Wednesday, either, &[drafts], Boxes::new(3, 3)?)?,
                Day::new(Thursday, on, &[drafts, maps], Boxes::new(2, 5)?)?,
                // Low above high: no box for that day.
                Day::new(Friday, off, &[maps], Boxes::new(1, 0)?)?,
            ],
        })
    }

    pub(crate) fn day(&mut self, weekday: Weekday) -> &mut Day {
        &mut self.days[weekday as usize]
    }
}

// What a plan weighs over its days, at the least and at the most, with no rule.
pub(crate) fn span<E: Entry>(entries: &[E]) -> (u32, u32) {
    entries.iter().fold((0u32, 0u32), |(least, most), entry| {
        (
            least.saturating_add(entry.lightest()),
            most.saturating_add(entry.heaviest()),
        )
    })
}
