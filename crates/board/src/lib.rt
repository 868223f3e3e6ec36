// A board: schedule tables that are started and stopped, and the jobs that they activate, on one processor.
#![tactic(auto)]

mod boards;
mod calls;
mod drives;
mod driving;
mod laws;
mod records;
mod tables;
mod ticking;
mod ticks;
mod waiting;

pub use boards::Board;
pub use calls::{Answer, Call, CallRefusal, Outcome, TickAnswer};
pub use drives::drive;
pub use laws::{rounds_stand, service_stands};
pub use records::{TableRecord, TableState};
