// The lines that a driver writes, and what each asks for.
#![tactic(auto)]

mod numbers;
mod order;
mod reading;

pub use order::Order;
pub use reading::{order_in, read_order};
