// Judges, closes and settles made-up plans, reads made-up sheets and carries whole ones, to be measured:
// measure DAYS RULES SORT WORK TIMES, measure sheet BYTES SORT WORK TIMES or measure whole KIND SORT WORK TIMES, or with no
// arguments a small run. bench/plain.rs prints the same.
#![tactic(auto)]

mod carrying;
mod checksum;
mod made_up;
mod reading;
mod sheets;
mod task;
mod whole_sheets;

use carrying::{LIST, WholeTask, WholeWork, work_whole};
use chains::judge;
use checksum::Checksum;
use closure::Closure;
use entry::refusal::Refusal;
use limits::link::Mark;
use limits::system::System;
use made_up::{Plan, Sort, made_up};
use plan::system_of;
use reading::{SheetTask, SheetWork, work_sheet};
use settlement::settle;
use settlement::verdict::{Agreement, Verdict};
use sheets::SheetSort;
use std::env;
use task::{Task, Work};
use whole_sheets::{Kind, SETTLES};

fn build_once(plan: &Plan, checksum: &mut Checksum) -> Result<(), Refusal> {
    let system = system_of(plan.entries.as_slice(), &plan.book)?;
    checksum.add_links(system.links());
    checksum.add_totals(system.lightest());
    checksum.add_totals(system.heaviest());
    Ok(())
}

fn judge_once(system: &System, checksum: &mut Checksum) {
    match judge(system) {
        Ok(_) => checksum.add(1),
        Err(chain) => checksum.add_links(chain.as_slice()),
    }
}

// Where there is no solution, there is nothing to close.
fn close_once(system: &System, checksum: &mut Checksum) {
    match judge(system) {
        Ok(agreed) => add_closure(&Closure::of(&agreed), checksum),
        Err(chain) => checksum.add_links(chain.as_slice()),
    }
}

// The smallest and the largest totals, and by how much the total can rise on each day.
fn add_closure(closure: &Closure<'_>, checksum: &mut Checksum) {
    checksum.add_totals(closure.smallest().as_slice());
    checksum.add_totals(closure.largest().as_slice());
    for before in 0..u8::MAX {
        let Some(rise) = closure.rise(Mark(before), Mark(before + 1)) else {
            break;
        };
        checksum.add(i32::from(rise.least));
        checksum.add(i32::from(rise.most));
    }
}

fn settle_once(plan: &Plan, checksum: &mut Checksum) {
    let settlement = settle(plan.entries.as_slice(), &plan.book);
    match settlement.verdict() {
        Verdict::Agreed(agreement) => add_agreement(agreement, checksum),
        Verdict::Blocked(chain) => checksum.add_links(chain.as_slice()),
        Verdict::Refused(refusal) => checksum.add(refusal.number().cast_signed()),
    }
}

fn add_agreement(agreement: &Agreement, checksum: &mut Checksum) {
    checksum.add_sets(agreement.possible.as_slice());
    checksum.add_roster(agreement.lean.as_slice());
    checksum.add_roster(agreement.full.as_slice());
}

fn work(task: &Task) -> Result<Checksum, Refusal> {
    let mut checksum = Checksum(0);
    let plan = made_up(task.days, task.rules, task.sort)?;
    let system = system_of(plan.entries.as_slice(), &plan.book)?;
    for _ in 0..task.times {
        match task.work {
            Work::Build => build_once(&plan, &mut checksum)?,
            Work::Judge => judge_once(&system, &mut checksum),
            Work::Close => close_once(&system, &mut checksum),
            Work::Settle => settle_once(&plan, &mut checksum),
        }
    }
    Ok(checksum)
}

fn run(rt: &HostRuntime, task: &Task) -> anyhow::Result<()> {
    let checksum = work(task)?;
    println!(rt; "{task}: {}", checksum.0)?;
    Ok(())
}

fn run_sheet(rt: &HostRuntime, task: &SheetTask) -> anyhow::Result<()> {
    let (bytes, checksum) = work_sheet(task);
    println!(rt; "{task}: {bytes} bytes, {}", checksum.0)?;
    Ok(())
}

fn run_whole(rt: &HostRuntime, task: &WholeTask) -> anyhow::Result<()> {
    let mut list = vec![in rt.alloc(); 0u8; LIST]?;
    let outcome = work_whole(task, list.as_mut_slice());
    println!(rt;
        "{task}: {} bytes, {SETTLES} settles, {} bytes of answers, {}",
        outcome.bytes, outcome.answers, outcome.checksum.0
    )?;
    Ok(())
}

fn small_run(rt: &HostRuntime) -> anyhow::Result<()> {
    for sort in [Sort::Agreed, Sort::Blocked, Sort::Slow] {
        for work in [Work::Build, Work::Judge, Work::Close, Work::Settle] {
            let task = Task {
                days: 16,
                rules: 64,
                sort,
                work,
                times: 1,
            };
            run(rt, &task)?;
        }
    }
    small_run_of_sheets(rt)
}

fn small_run_of_sheets(rt: &HostRuntime) -> anyhow::Result<()> {
    for sort in [SheetSort::Calls, SheetSort::Settles, SheetSort::Codes] {
        for work in [SheetWork::Read, SheetWork::Spoil] {
            let task = SheetTask {
                bytes: 400,
                sort,
                work,
                times: 1,
            };
            run_sheet(rt, &task)?;
        }
    }
    small_run_of_whole_sheets(rt)
}

fn small_run_of_whole_sheets(rt: &HostRuntime) -> anyhow::Result<()> {
    for kind in [Kind::Duty, Kind::Collection, Kind::Boxes] {
        for sort in [Sort::Agreed, Sort::Blocked] {
            let task = WholeTask {
                kind,
                sort,
                work: WholeWork::Carry,
                times: 1,
            };
            run_whole(rt, &task)?;
        }
    }
    Ok(())
}

fn main(rt: HostRuntime) -> anyhow::Result<()> {
    let words: Vec<String> = env::args(&rt)?.skip(1).collect(rt.alloc())?;
    match words.as_slice() {
        [] => small_run(&rt),
        [first, rest @ ..] if first.as_str() == "sheet" => run_sheet(&rt, &SheetTask::read(rest)?),
        [first, rest @ ..] if first.as_str() == "whole" => run_whole(&rt, &WholeTask::read(rest)?),
        all => run(&rt, &Task::read(all)?),
    }
}
