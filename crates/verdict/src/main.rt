// Reads a plan file from standard input and prints what becomes of it, in lines.
#![tactic(auto)]

use plan::{Fault, Plan};
use std::io::Read;

// What lies past these bytes decides nothing: the longest readable file is far shorter.
const FILE_LIMIT: u64 = 1_024;

fn run(rt: &HostRuntime) -> anyhow::Result<()> {
    let heap = rt.alloc();
    let mut file = Vec::new(heap);
    let _ = rt.stdin().take(FILE_LIMIT).read_to_end(&mut file)?;
    let mut plan = Plan::new(heap)?;
    match plan.read(heap, &file) {
        Ok(()) => {
            let tables = plan.tables().len();
            let tasks = plan.tasks().len();
            println!(rt;
                "READ {tables} {tasks} {} {}",
                plan.work(),
                plan.hyperperiod()
            )?;
        }
        Err(fault @ Fault::At { .. }) => println!(rt; "{fault}")?,
        Err(fault) => return Err(fault.into()),
    }
    Ok(())
}

fn main(rt: HostRuntime) -> anyhow::Result<()> {
    run(&rt)
}
