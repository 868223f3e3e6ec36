// Drives a board by calls from standard input: drive PLANFILE arrival | examiner W | pair CUT
#![tactic(auto)]

mod play;

use crate::play::play;
use anyhow::{Context, anyhow};
use plan::{Fault, Plan};
use ready::arrival::ArrivalList;
use ready::examiner::ExaminerQueue;
use ready::pair::Pair;
use std::{env, fs};

fn read_plan(rt: &HostRuntime, path: &str) -> anyhow::Result<Plan> {
    let file = fs::read(rt, path)?;
    let mut plan = Plan::new(rt.alloc())?;
    match plan.read(rt.alloc(), &file) {
        Ok(()) => Ok(plan),
        Err(fault @ Fault::At { .. }) => {
            eprintln!(rt; "{fault}")?;
            Err(anyhow!("the plan file cannot be read"))
        }
        Err(fault) => Err(fault.into()),
    }
}

fn run(rt: &HostRuntime) -> anyhow::Result<()> {
    let mut words = env::args(rt)?.skip(1);
    let usage = "usage: drive PLANFILE arrival | examiner W | pair CUT";
    let path = words.next().context(usage)?;
    let kind = words.next().context(usage)?;
    let plan = read_plan(rt, &path)?;
    // By cases: with each kind of queue the board is of another type.
    match kind.as_str() {
        "arrival" => play(rt, &plan, ArrivalList::new(rt.alloc())?),
        "examiner" => {
            let watch = words.next().context(usage)?.parse::<usize>()?;
            play(rt, &plan, ExaminerQueue::new(watch))
        }
        "pair" => {
            let cut = words.next().context(usage)?.parse::<u8>()?;
            let first = ArrivalList::new(rt.alloc())?;
            let second = ArrivalList::new(rt.alloc())?;
            play(rt, &plan, Pair::new(first, second, cut))
        }
        _ => Err(anyhow!(usage)),
    }
}

fn main(rt: HostRuntime) -> anyhow::Result<()> {
    run(&rt)
}
