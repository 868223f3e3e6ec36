// What the search tells of a task.
use plan::MAX_TABLES;

// A task's figure with a choice that attains it: the tick of the window in which its job is activated, and the phase of each table,
// 0 past the last one. An array, so that it copies without the heap.
#[derive(Clone, Copy, Debug, PartialEq, Eq)]
pub struct Worst {
    pub figure: u32,
    pub tick: u32,
    pub phases: [u32; MAX_TABLES],
}
