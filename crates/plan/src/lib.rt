// A plan of schedule tables, and the file it is read from.
#![tactic(auto)]

mod adding;
mod commands;
mod drafts;
mod faults;
mod limits;
mod load;
mod model;
mod parts;
mod reader;
mod reading;
mod records;
mod rows;

pub use faults::{Fault, Row};
pub use limits::{MAX_TABLES, MAX_TASKS};
pub use model::Plan;
pub use records::{Point, Table, Task};
