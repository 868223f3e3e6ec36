// Reads plan files written in hexadecimal, one to a line after a label, into one plan, and prints what becomes of each
// and what the plan then holds.
#![tactic(auto)]

use anyhow::Context;
use plan::{Fault, Plan};
use std::alloc::{AllocError, Global};

// Not `to_digit(16)`, which takes lower case too.
fn digit(b: u8) -> Option<u8> {
    match b {
        b'0'..=b'9' => Some(b - b'0'),
        b'A'..=b'F' => Some(b - b'A' + 10),
        _ => None,
    }
}

// The bytes that pairs of hexadecimal digits stand for; what is no digit is passed over.
fn decoded(heap: Global, text: &[u8]) -> Result<Vec<u8>, AllocError> {
    let mut bytes = Vec::new(heap);
    let mut high: Option<u8> = None;
    for low in text.iter().filter_map(|b| digit(*b)) {
        match high.take() {
            Some(high) => bytes.push(high << 4 | low)?,
            None => high = Some(low),
        }
    }
    Ok(bytes)
}

fn try_case(rt: &HostRuntime, plan: &mut Plan, line: &str) -> anyhow::Result<()> {
    let (label, text) = line
        .split_once(':')
        .context("a case has a label and a colon")?;
    let file = decoded(rt.alloc(), text.as_bytes())?;
    match plan.read(rt.alloc(), &file) {
        Ok(()) => print!(rt; "{label}: READ")?,
        Err(fault @ Fault::At { .. }) => print!(rt; "{label}: {fault}")?,
        Err(fault) => return Err(fault.into()),
    }
    let tables = plan.tables().len();
    let points = plan.points().len();
    let tasks = plan.tasks().len();
    let work = plan.work();
    let hyperperiod = plan.hyperperiod();
    println!(rt; ", holds {tables} {points} {tasks} {work} {hyperperiod}")?;
    Ok(())
}

fn run(rt: &HostRuntime) -> anyhow::Result<()> {
    let mut plan = Plan::new(rt.alloc())?;
    for line in rt.lines(rt.alloc()) {
        try_case(rt, &mut plan, &line?)?;
    }
    Ok(())
}

fn main(rt: HostRuntime) -> anyhow::Result<()> {
    run(&rt)
}
