// Ready queues: the jobs that wait for the processor, and which of them runs next.
#![tactic(auto)]

pub mod arrival;
pub mod examiner;
pub mod job;
mod lead;
pub mod pair;
pub mod queue;
pub mod refusal;
