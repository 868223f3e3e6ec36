// The limits of a plan, each written once.
pub const MAX_TABLES: usize = 4;

pub(crate) const MAX_DURATION: u16 = 2_000;

pub(crate) const MAX_POINTS: usize = 8;

pub(crate) const MAX_TASKS_OF_POINT: usize = 4;

pub const MAX_TASKS: usize = 16;

pub(crate) const MAX_HYPERPERIOD: u32 = 10_000;

pub(crate) const NAME_LENGTH: usize = 4;

pub(crate) const FIRST_NAME_BYTE: u8 = 0x21;

pub(crate) const LAST_NAME_BYTE: u8 = 0x7E;
