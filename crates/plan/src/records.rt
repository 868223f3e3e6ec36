// What a plan is made of. Each list stands in file order, and a record names the one above it by its index. The lists are
// flat, not tables that own their points: tables and tasks are told to the outside by these very numbers.
use crate::limits::NAME_LENGTH;

// A schedule table: it repeats every `duration` ticks.
#[derive(Clone, Copy, Debug, PartialEq, Eq)]
pub struct Table {
    pub duration: u16,
}

// An expiry point: `position` ticks into each round of its table.
#[derive(Clone, Copy, Debug, PartialEq, Eq)]
pub struct Point {
    pub table: usize,
    pub position: u16,
}

// A task that its expiry point activates; the lower priority number is the more urgent.
#[derive(Clone, Copy, Debug, PartialEq, Eq)]
pub struct Task {
    pub point: usize,
    pub name: [u8; NAME_LENGTH],
    pub execution: u16,
    pub deadline: u16,
    pub priority: u8,
}
