// The figures of a plan: the exact worst-case response time of each task, found by a search over the windows of the theory.
#![tactic(auto)]

mod ceiling;
mod choices;
mod demand;
mod groups;
mod loads;
mod search;
mod spans;
mod subject;
mod tries;
mod windows;
mod worst;

pub use search::figures;
pub use worst::Worst;
