// What a line asks for.
#[derive(Clone, Copy, Debug, PartialEq, Eq)]
pub enum Order {
    Start { table: u64, delay: u64 },
    Stop { table: u64 },
    State { table: u64 },
    Ticks { count: u64 },
}
