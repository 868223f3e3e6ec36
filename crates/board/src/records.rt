// What the board keeps for each table.

#[derive(Clone, Copy, Debug, PartialEq, Eq)]
pub enum TableState {
    Stopped,
    // So many ticks until its round begins.
    Waiting { ticks: u32 },
    Running { position: u32 },
}

#[derive(Clone, Copy, Debug, PartialEq, Eq)]
pub struct TableRecord {
    pub state: TableState,
    // The earliest tick at which a round may begin.
    pub earliest: u32,
}

impl TableRecord {
    // Of a table that was never started.
    pub(crate) const REST: TableRecord = TableRecord {
        state: TableState::Stopped,
        earliest: 0,
    };
}
