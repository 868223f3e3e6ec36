// Drives boards on sample plans, and prints the last answer of each drive.
#![tactic(auto)]

use anyhow::{Context, anyhow};
use board::{Answer, Call, Outcome, drive};
use plan::{Fault, Plan};
use ready::arrival::ArrivalList;
use ready::examiner::ExaminerQueue;
use ready::queue::ReadyQueue;
use std::alloc::{AllocError, Global};

// A table of 10 with MOT1 at 0 and LMP1 at 5, and one of 15 with AUG1 at 2; LMP1's deadline is 5.
const HARVESTER: &[u8] =
    b"T\x00\x0aP\x00\x00JMOT1\x00\x02\x00\x04\x01P\x00\x05JLMP1\x00\x01\x00\x05\x03T\x00\x0fP\x00\x02JAUG1\x00\x03\x00\x06\x02E";

// The same with deadline 3.
const HURRIED: &[u8] =
    b"T\x00\x0aP\x00\x00JMOT1\x00\x02\x00\x04\x01P\x00\x05JLMP1\x00\x01\x00\x03\x03T\x00\x0fP\x00\x02JAUG1\x00\x03\x00\x06\x02E";

// Two tables of 10 with one task each, of execution times 2 and 3 and one priority.
const TIED: &[u8] =
    b"T\x00\x0aP\x00\x00JTWO.\x00\x02\x00\x0a\x01T\x00\x0aP\x00\x00JTHRE\x00\x03\x00\x0a\x01E";

// A sample that cannot be read is this program's own fault, so it has another message than a plan that a user hands to `drive`.
fn plan_of(heap: Global, file: &[u8]) -> anyhow::Result<Plan> {
    let mut plan = Plan::new(heap)?;
    match plan.read(heap, file) {
        Ok(()) => Ok(plan),
        Err(Fault::At { .. }) => Err(anyhow!("a sample plan cannot be read")),
        Err(fault) => Err(fault.into()),
    }
}

// Starts the tables with their delays in number order, and then so many ticks.
fn started(heap: Global, delays: &[u32], ticks: u32) -> Result<Vec<Call>, AllocError> {
    let mut calls = Vec::new(heap);
    for (table, delay) in delays.iter().enumerate() {
        calls.push(Call::Start {
            table,
            delay: *delay,
        })?;
    }
    for _ in 0..ticks {
        calls.push(Call::Tick)?;
    }
    Ok(calls)
}

fn print_last(rt: &HostRuntime, label: &str, outcomes: &[Outcome]) -> anyhow::Result<()> {
    match outcomes.last().context("a drive without calls")? {
        Ok(Answer::Done) => println!(rt; "{label}: done")?,
        Ok(Answer::State { state }) => println!(rt; "{label}: state {}", state.number())?,
        Ok(Answer::Ticked { told }) => println!(rt;
            "{label}: served {:?}, response {:?}, late {:?}",
            told.served, told.response, told.late
        )?,
        Err(why) => println!(rt; "{label}: refused {}", why.number())?,
    }
    Ok(())
}

fn show<Q: ReadyQueue + Drop>(
    rt: &HostRuntime,
    label: &str,
    file: &[u8],
    queue: Q,
    calls: &[Call],
) -> anyhow::Result<()> {
    let plan = plan_of(rt.alloc(), file)?;
    let answers = drive(rt.alloc(), &plan, queue, calls)?;
    print_last(rt, label, &answers)
}

fn on_arrival_lists(rt: &HostRuntime) -> anyhow::Result<()> {
    let heap = rt.alloc();
    let ninth = started(heap, &[1, 4], 9)?;
    show(
        rt,
        "delays 1 and 4, ninth tick",
        HARVESTER,
        ArrivalList::new(heap)?,
        &ninth,
    )?;
    let eighth = started(heap, &[1, 4], 8)?;
    show(
        rt,
        "deadline 3, eighth tick",
        HURRIED,
        ArrivalList::new(heap)?,
        &eighth,
    )?;
    let fifth = started(heap, &[2, 1], 5)?;
    show(
        rt,
        "tied, delays 2 and 1, fifth tick",
        TIED,
        ArrivalList::new(heap)?,
        &fifth,
    )?;
    let second = started(heap, &[1, 1], 2)?;
    show(
        rt,
        "tied, delays 1 and 1, second tick",
        TIED,
        ArrivalList::new(heap)?,
        &second,
    )
}

fn on_examiners(rt: &HostRuntime) -> anyhow::Result<()> {
    let heap = rt.alloc();
    let fifth = started(heap, &[1, 1], 5)?;
    show(
        rt,
        "tied, first task watched, fifth tick",
        TIED,
        ExaminerQueue::new(0),
        &fifth,
    )?;
    show(
        rt,
        "tied, second task watched, fifth tick",
        TIED,
        ExaminerQueue::new(1),
        &fifth,
    )
}

// Table 0 runs for three ticks, stops, and is started again with the delay.
fn restarted(rt: &HostRuntime, label: &str, delay: u32) -> anyhow::Result<()> {
    let calls = [
        Call::Start { table: 0, delay: 1 },
        Call::Tick,
        Call::Tick,
        Call::Tick,
        Call::Stop { table: 0 },
        Call::Start { table: 0, delay },
    ];
    show(rt, label, HARVESTER, ArrivalList::new(rt.alloc())?, &calls)
}

// A board with a late job answers only questions.
fn late_board(rt: &HostRuntime) -> anyhow::Result<()> {
    let heap = rt.alloc();
    let mut calls = started(heap, &[1, 4], 9)?;
    show(
        rt,
        "late board, tick",
        HURRIED,
        ArrivalList::new(heap)?,
        &calls,
    )?;
    calls.push(Call::Stop { table: 0 })?;
    show(
        rt,
        "late board, stop",
        HURRIED,
        ArrivalList::new(heap)?,
        &calls,
    )?;
    calls.push(Call::State { table: 1 })?;
    show(
        rt,
        "late board, state",
        HURRIED,
        ArrivalList::new(heap)?,
        &calls,
    )
}

fn run(rt: &HostRuntime) -> anyhow::Result<()> {
    on_arrival_lists(rt)?;
    on_examiners(rt)?;
    restarted(rt, "stopped after three ticks, delay 7", 7)?;
    restarted(rt, "stopped after three ticks, delay 8", 8)?;
    late_board(rt)
}

fn main(rt: HostRuntime) -> anyhow::Result<()> {
    run(&rt)
}
