// The commands of a plan file, each with its operands.
use crate::limits::NAME_LENGTH;

#[derive(Clone, Copy)]
pub(crate) enum Command {
    Table {
        duration: u16,
    },
    Point {
        position: u16,
    },
    // A point by its distance from the point before it.
    Delay {
        ticks: u16,
    },
    Task {
        name: [u8; NAME_LENGTH],
        execution: u16,
        deadline: u16,
        priority: u8,
    },
    End,
}

// A command and the place of its first byte.
#[derive(Clone, Copy)]
pub(crate) struct Placed {
    pub(crate) command: Command,
    pub(crate) place: usize,
}
