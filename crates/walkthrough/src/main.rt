// A reviewer's week: set up, narrowed when a donor closes the drafts, and opened again by grants.
#![tactic(auto)]

mod week;
mod words;

use entry::refusal::Refusal;
use entry::traits::Entry;
use failure::Failure;
use papers::Papers;
use std::io;
use week::{Shift, Week, Weekday, span};
use words::{BoxWords, DutyWords, titles};

fn print_week(rt: &HostRuntime, week: &Week) -> io::Result<()> {
    println!(rt; "  day        duty       may open               boxes")?;
    for day in &week.days {
        let papers = titles(rt.alloc(), &day.papers)?;
        println!(rt;
            "  {:<10} {:<10} {papers:<22} {}",
            day.weekday,
            DutyWords(day.duty),
            BoxWords(day.boxes)
        )?;
    }
    let (closed, closed_most) = span(&week.days.map(|day| day.papers));
    let (few, many) = span(&week.days.map(|day| day.boxes));
    println!(rt;
        "  Days on the donor's papers: {closed} to {closed_most}. Boxes in all: {few} to {many}."
    )
}

// Says in a sentence what came of an edit.
fn tell(
    rt: &HostRuntime,
    weekday: Weekday,
    asked: &str,
    answer: Result<(), Refusal>,
) -> io::Result<()> {
    match answer {
        Ok(()) => println!(rt; "  {weekday}, {asked}: done."),
        Err(refusal) => {
            println!(rt;
                "  {weekday}, {asked}: refused ({}), {refusal}.",
                refusal.number()
            )
        }
    }
}

fn close_drafts(rt: &HostRuntime, week: &mut Week) -> io::Result<()> {
    let drafts = u32::from(Papers::Drafts);
    println!(rt; "\nThe donor closes the drafts:")?;
    for day in &mut week.days {
        tell(rt, day.weekday, "no drafts", day.papers.strike(drafts))?;
    }
    println!(rt; "\nWith the maps open on Wednesday, the drafts can go there too:")?;
    let day = week.day(Weekday::Wednesday);
    let maps = u32::from(Papers::Maps);
    tell(rt, day.weekday, "maps", day.papers.grant(maps))?;
    tell(rt, day.weekday, "no drafts", day.papers.strike(drafts))
}

fn move_boxes(rt: &HostRuntime, week: &mut Week) -> io::Result<()> {
    println!(rt; "\nThe store room says how many boxes it can bring:")?;
    let day = week.day(Weekday::Thursday);
    tell(rt, day.weekday, "not 3 boxes", day.boxes.strike(3))?;
    tell(rt, day.weekday, "not 5 boxes", day.boxes.strike(5))?;
    let day = week.day(Weekday::Friday);
    tell(rt, day.weekday, "2 boxes", day.boxes.grant(2))?;
    tell(rt, day.weekday, "4 boxes", day.boxes.grant(4))?;
    tell(rt, day.weekday, "64 boxes", day.boxes.grant(64))
}

fn open_friday(rt: &HostRuntime, week: &mut Week) -> io::Result<()> {
    println!(rt; "\nThe reading room opens on Friday again:")?;
    let day = week.day(Weekday::Friday);
    tell(
        rt,
        day.weekday,
        "on duty",
        day.duty.grant(u32::from(Shift::On)),
    )?;
    tell(
        rt,
        day.weekday,
        "no day off",
        day.duty.strike(u32::from(Shift::Off)),
    )
}

fn main(rt: HostRuntime) -> Result<(), Failure> {
    let mut week = Week::new()?;
    println!(rt; "A reviewer's week as it is set up:")?;
    print_week(&rt, &week)?;
    close_drafts(&rt, &mut week)?;
    move_boxes(&rt, &mut week)?;
    open_friday(&rt, &mut week)?;
    println!(rt; "\nThe week after these edits:")?;
    print_week(&rt, &week)?;
    Ok(())
}
